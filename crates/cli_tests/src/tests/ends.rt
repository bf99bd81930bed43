//! Readers and writers that fail, that never end, or that take one byte at a time.

use super::watched::Watched;
use oberon_cli::{Source, serve};
use recording_texts::STORED_RUN;
use std::alloc::Global;
use std::io::{self, Error, ErrorKind, Read, Write};
use std::process::Abort;
use std::sync::Wait;
use std::test::Fail;
use std::thread::Threads;

/// The line of the stored run.
const LINE: &[u8] = b"accepted 1 checkpoints 100 steps\n";

/// A reader that returns at most a thousand bytes a call. The call after a number of calls fails, and no other.
#[derive(Drop)]
struct Failing<'a> {
    rest: &'a [u8],
    calls: u32,
    why: ErrorKind,
}

impl Read for Failing<'_> {
    fn read(&mut self, buf: &mut [u8]) -> io::Result<usize> {
        let before = self.calls;
        self.calls = before.wrapping_sub(1);
        if before == 0 {
            return Err(Error::from(self.why));
        }
        let most = buf.len().min(1000);
        self.rest.read(&mut buf[..most])
    }
}

/// A reader that returns one byte a call.
#[derive(Drop)]
struct Dripping<'a> {
    rest: &'a [u8],
}

impl Read for Dripping<'_> {
    fn read(&mut self, buf: &mut [u8]) -> io::Result<usize> {
        let most = buf.len().min(1);
        self.rest.read(&mut buf[..most])
    }
}

/// A reader that returns zeros without end, and counts them.
#[derive(Drop)]
struct Endless {
    given: u64,
}

impl Read for Endless {
    fn read(&mut self, buf: &mut [u8]) -> io::Result<usize> {
        for byte in buf.iter_mut() {
            *byte = 0;
        }
        let count = buf.len();
        self.given = self.given.saturating_add(count as u64);
        Ok(count)
    }
}

/// Checks what was written.
fn is_written(rt: &impl Abort, written: &[u8], wanted: &[u8]) {
    assert_eq!(rt; written, wanted);
}

#[test]
fn help_and_refused_words_read_nothing(rt: HostRuntime) {
    for (arguments, status) in [(["--help"], 0), (["bogus"], 4)] {
        let mut input = Endless { given: 0 };
        let mut output = Vec::new(rt.alloc());
        let ended = serve(&rt, rt.alloc(), &arguments, &mut input, &mut output);
        assert_eq!(rt; (ended, input.given), (status, 0));
    }
}

/// What a call that takes no bytes returns.
#[derive(Clone, Copy)]
enum Refusal {
    TakesNone,
    Fails(ErrorKind),
}

impl Refusal {
    fn answer(self) -> io::Result<()> {
        match self {
            Refusal::TakesNone => Ok(()),
            Refusal::Fails(why) => Err(Error::from(why)),
        }
    }
}

/// A writer that takes one byte a call. Only the call after a number of calls is refused; and each flush, if `flush` says so.
#[derive(Drop)]
struct Narrow {
    taken: Vec<u8>,
    calls: usize,
    refusal: Refusal,
    flush: Refusal,
}

impl Write for Narrow {
    fn write(&mut self, buf: &[u8]) -> io::Result<usize> {
        let before = self.calls;
        self.calls = before.wrapping_sub(1);
        if before == 0 {
            self.refusal.answer()?;
            return Ok(0);
        }
        match buf.first() {
            Some(byte) => {
                self.taken.push(*byte)?;
                Ok(1)
            }
            None => Ok(0),
        }
    }

    fn flush(&mut self) -> io::Result<()> {
        self.flush.answer()
    }
}

/// Returns a reader of this file whose call after a number of calls fails.
fn failing_reader<'a>(rest: &'a [u8], calls: u32, why: ErrorKind) -> Watched<Failing<'a>> {
    Watched::new(Failing { rest, calls, why })
}

/// Checks that the program ends with a fault of the reader, and that nothing else is written.
fn ends_with_read_fault<'a, H: Abort + AllocGlobal + Threads + Wait + Sync>(
    rt: &H,
    arguments: &'a [&'a str],
    mut input: Watched<Failing<'_>>,
) {
    let mut output = Watched::new(Vec::new(rt.alloc()));
    let status = serve(rt, rt.alloc(), arguments, &mut input, &mut output);
    let has_failed = (input.has_failed(), output.has_failed());
    is_written(rt, output.into_inner().as_slice(), b"read fault\n");
    assert_eq!(rt; status, 3);
    assert!(rt; has_failed == (true, false));
}

/// Arguments of commands that read a file.
const READING: [&[&str]; 4] = [
    &["check", "--cut=1"],
    &["record"],
    &["screen", "--at=0"],
    &["migrate"],
];

#[test]
fn a_read_that_fails_leaves_its_line_alone(rt: HostRuntime) -> Result<(), Fail> {
    let text = STORED_RUN.first_file(rt.alloc())?;
    for arguments in READING {
        for why in [ErrorKind::Other, ErrorKind::Interrupted] {
            // The file takes ten calls, and its end is seen at the eleventh.
            for calls in 0..11 {
                ends_with_read_fault(&rt, arguments, failing_reader(&text, calls, why));
            }
        }
    }
    Ok(())
}

/// Checks that a file is checked to the line of the stored run.
fn is_accepted<H: Abort + AllocGlobal + Threads + Wait + Sync>(
    rt: &H,
    arguments: &[&str],
    input: &mut impl Source,
) {
    let mut output = Watched::new(Vec::new(rt.alloc()));
    let status = serve(rt, rt.alloc(), arguments, input, &mut output);
    let has_failed = output.has_failed();
    is_written(rt, output.into_inner().as_slice(), LINE);
    assert_eq!(rt; status, 0);
    assert!(rt; !has_failed);
}

#[test]
fn a_read_that_would_fail_after_the_end_is_not_made(rt: HostRuntime) -> Result<(), Fail> {
    let text = STORED_RUN.first_file(rt.alloc())?;
    let mut input = failing_reader(&text, 11, ErrorKind::Other);
    is_accepted(&rt, &["check"], &mut input);
    assert!(rt; !input.has_failed());
    Ok(())
}

#[test]
fn a_reader_of_one_byte_a_call_is_read_to_its_end(rt: HostRuntime) -> Result<(), Fail> {
    let text = STORED_RUN.first_file(rt.alloc())?;
    is_accepted(&rt, &[], &mut Dripping { rest: &text });
    Ok(())
}

/// Arguments, the line for an input of zeros without end, and how many zeros are read.
const ENDLESS: [(&[&str], &str, u64); 4] = [
    (&["check"], "refused 2 magic at byte 0\n", 118_310_057),
    (&["migrate"], "refused 2 magic at byte 0\n", 118_310_057),
    (
        &["screen", "--at=0"],
        "refused 2 magic at byte 0\n",
        118_310_057,
    ),
    (&["record"], "session refused 3 range\n", 67_108_865),
];

#[test]
fn a_reader_without_end_is_read_up_to_the_limit(rt: HostRuntime) {
    for (arguments, line, limit) in ENDLESS {
        let mut input = Endless { given: 0 };
        let mut output = Vec::new(rt.alloc());
        let status = serve(&rt, rt.alloc(), arguments, &mut input, &mut output);
        is_written(&rt, output.as_slice(), line.as_bytes());
        assert_eq!(rt; (status, input.given), (2, limit));
    }
}

/// Checks the status of these arguments with a writer that takes one byte a call, and what it has taken. It failed if and only if
/// the status is 3.
fn ends_narrow<'a, H: Abort + AllocGlobal + Threads + Wait + Sync>(
    rt: &H,
    arguments: &'a [&'a str],
    text: &[u8],
    output: Narrow,
    (status, taken): (u8, &[u8]),
) {
    let mut output = Watched::new(output);
    let mut rest = text;
    let ended = serve(rt, rt.alloc(), arguments, &mut rest, &mut output);
    let has_failed = output.has_failed();
    is_written(rt, output.into_inner().taken.as_slice(), taken);
    assert_eq!(rt; ended, status);
    assert_eq!(rt; has_failed, status == 3);
}

/// Returns a writer whose call after a number of calls is refused, and whose flush succeeds.
fn refusing(alloc: Global, calls: usize, refusal: Refusal) -> Narrow {
    Narrow {
        taken: Vec::new(alloc),
        calls,
        refusal,
        flush: Refusal::TakesNone,
    }
}

/// Each result of a call that takes no bytes.
const REFUSALS: [Refusal; 3] = [
    Refusal::TakesNone,
    Refusal::Fails(ErrorKind::Other),
    Refusal::Fails(ErrorKind::Interrupted),
];

#[test]
fn a_write_that_fails_leaves_a_prefix_of_the_line(rt: HostRuntime) -> Result<(), Fail> {
    let text = STORED_RUN.first_file(rt.alloc())?;
    for calls in 0..LINE.len() {
        for refusal in REFUSALS {
            let output = refusing(rt.alloc(), calls, refusal);
            ends_narrow(&rt, &[], &text, output, (3, &LINE[..calls]));
        }
    }
    Ok(())
}

#[test]
fn a_write_that_fails_leaves_a_prefix_of_a_migrated_file(rt: HostRuntime) -> Result<(), Fail> {
    let text = STORED_RUN.first_file(rt.alloc())?;
    let migrated = STORED_RUN.second_file(rt.alloc())?;
    for calls in [0, 1, 24, migrated.len().saturating_sub(1)] {
        let prefix = migrated.get(..calls).ok_or("the text is shorter")?;
        for refusal in REFUSALS {
            let output = refusing(rt.alloc(), calls, refusal);
            ends_narrow(&rt, &["migrate"], &text, output, (3, prefix));
        }
    }
    Ok(())
}

#[test]
fn a_flush_that_fails_is_a_write_fault(rt: HostRuntime) -> Result<(), Fail> {
    let text = STORED_RUN.first_file(rt.alloc())?;
    for (flush, status) in REFUSALS.into_iter().zip([0, 3, 3]) {
        let output = Narrow {
            flush,
            ..refusing(rt.alloc(), LINE.len(), Refusal::TakesNone)
        };
        ends_narrow(&rt, &[], &text, output, (status, LINE));
    }
    Ok(())
}
