//! Files of version 3: what is read is written again, and each rule that they have by themselves is broken once.

use crate::tests::files::{
    Turned, check_parts, check_rows, file_of, is_fault_of, is_refused_with_a_byte_more, put_words,
    row_of_another_fault,
};
use oberon_format::{Fault, Recording, read, read_with_disk, write, write_with_disk};
use recording_texts::{
    Claim, EMPTY, EQUAL_PAGES, Event, FIRST_PAGE, JUMP, ONE_BYTE_SENT, STORED_RUN, Sketch, ZEROS,
};
use std::alloc::{AllocError, Global};

/// A page; a timer and an answer of a disk, from byte 1048 on; checkpoint 0, from byte 1080 on, with a change from byte 1224 on;
/// checkpoint 1, from byte 1236 on, with two changes from byte 1380 on, the answer, and two bytes of output.
const ANSWERS: Sketch<'static> = Sketch {
    pages: &[&[JUMP]],
    events: &[
        Event {
            count: 0,
            kind: 1,
            value: 7,
        },
        Event {
            count: 5,
            kind: 6,
            value: 0xFEDC_BA98,
        },
    ],
    claims: &[
        FIRST_PAGE,
        Claim {
            count: 10,
            disk: 0xFEDC_BA98,
            table: &[(1, 1)],
            sent: b"AB",
            ..ZEROS
        },
    ],
};

/// Returns the same from a call, since each use of the constant is proved with all of its parts.
fn answers() -> Sketch<'static> {
    ANSWERS
}

/// Returns the recording of the file of a sketch in version 3.
fn third_recording(alloc: Global, sketch: &Sketch<'_>) -> Option<Recording> {
    let bytes = sketch.third_file(alloc).ok()?;
    read_with_disk(alloc, &bytes).ok()
}

/// Returns the file that is written of it in version 3.
fn third_file_again(alloc: Global, sketch: &Sketch<'_>) -> Option<Vec<u8>> {
    let recording = third_recording(alloc, sketch)?;
    write_with_disk(alloc, &recording).ok()
}

/// Returns the file that is written of it in the version that it needs.
fn least_file(alloc: Global, sketch: &Sketch<'_>) -> Option<Vec<u8>> {
    let recording = third_recording(alloc, sketch)?;
    write(alloc, &recording).ok()
}

/// Reports whether a file that is written is that of a sketch in a version.
fn is_file_of(alloc: Global, written: Option<Vec<u8>>, version: u32, sketch: &Sketch<'_>) -> bool {
    let Some(written) = written else {
        return false;
    };
    match file_of(alloc, version, sketch) {
        Ok(bytes) => written.as_slice() == bytes.as_slice(),
        Err(_) => false,
    }
}

/// Recordings, and the version that each needs.
const SKETCHES: [(Sketch<'static>, u32); 5] = [
    (STORED_RUN, 2),
    (EMPTY, 2),
    (EQUAL_PAGES, 2),
    (ONE_BYTE_SENT, 2),
    (ANSWERS, 3),
];

/// Returns the first row that is written as another file, if there is one.
fn row_of_another_file(alloc: Global) -> Option<usize> {
    for (row, (sketch, least)) in SKETCHES.iter().enumerate() {
        if !is_file_of(alloc, third_file_again(alloc, sketch), 3, sketch)
            || !is_file_of(alloc, least_file(alloc, sketch), *least, sketch)
        {
            return Some(row);
        }
    }
    None
}

#[test]
fn writes_what_it_reads_or_the_version_that_it_needs(rt: HostRuntime) {
    check_rows(&rt, row_of_another_file(rt.alloc()));
}

/// Returns the part of this recording that is not that of the answers, if there is one.
fn part_unlike_answers(recording: &Recording) -> Option<&'static str> {
    let events = recording.inputs().events();
    if events.len() != 2 || recording.count() != 2 {
        return Some("number of inputs, or of checkpoints");
    }
    if events[1].input.kind() != 6 || events[1].input.value() != 0xFEDC_BA98 {
        return Some("input");
    }
    if recording.checkpoint(0).devices.disk() != 255 {
        return Some("answer in checkpoint 0");
    }
    if recording.checkpoint(1).devices.disk() != 0xFEDC_BA98 {
        return Some("answer in checkpoint 1");
    }
    None
}

/// Returns the same for the recording of their file.
fn part_read_wrong(alloc: Global) -> Option<&'static str> {
    match third_recording(alloc, &answers()) {
        Some(recording) => part_unlike_answers(&recording),
        None => Some("answer to the file"),
    }
}

#[test]
fn reads_answers_of_a_disk(rt: HostRuntime) {
    check_parts(&rt, part_read_wrong(rt.alloc()));
}

/// Words of the file of the answers, and its first fault with them.
const BROKEN: [Turned; 13] = [
    (&[(4, 4)], Fault::Version(4)),
    // version 2 has no inputs of kind 6, and version 3 none of kind 7
    (&[(4, 2)], Fault::Event(1064)),
    (&[(1072, 7)], Fault::Event(1064)),
    // more inputs than there can be, and than there are
    (&[(12, 4_000_001)], Fault::Limit(12)),
    (&[(12, 4_000_000)], Fault::Short(1402)),
    (&[(4, 2), (12, 1_000_001)], Fault::Limit(12)),
    // more changes than slots, and more changes, or fewer, than there are bytes for
    (&[(1220, 1025)], Fault::Checkpoint(1080)),
    (&[(1220, 1024)], Fault::Short(1402)),
    (&[(1376, 3)], Fault::Short(1402)),
    (&[(1376, 1)], Fault::Trailing(1394)),
    // output that is missing, and bytes after it
    (&[(1364, 3)], Fault::Short(1402)),
    (&[(1364, 1)], Fault::Trailing(1401)),
    // a change of the last checkpoint, and output that is missing
    (&[(1364, 3), (1392, 2)], Fault::Page(1388)),
];

#[test]
fn refuses_each_broken_rule(rt: HostRuntime) {
    check_rows(
        &rt,
        row_of_another_fault(rt.alloc(), 3, &answers(), &BROKEN),
    );
    assert!(rt; is_refused_with_a_byte_more(rt.alloc(), 3, Fault::Trailing(1352)));
}

/// Returns the greatest length at which the file of the answers, cut there, has another fault than that it is short.
fn length_of_another_fault(alloc: Global, mut bytes: Vec<u8>) -> Option<usize> {
    for cut in 1..1403usize {
        let len = 1402 - cut;
        bytes.truncate(len);
        if !is_fault_of(alloc, 3, &bytes, Fault::Short(len as u64)) {
            return Some(len);
        }
    }
    None
}

/// Returns that length, or that of the file if there is none.
fn cut_of_another_fault(alloc: Global) -> Option<usize> {
    match answers().third_file(alloc) {
        Ok(bytes) => length_of_another_fault(alloc, bytes),
        Err(_) => Some(1402),
    }
}

#[test]
fn refuses_a_file_cut_at_each_byte(rt: HostRuntime) {
    if let Some(len) = cut_of_another_fault(rt.alloc()) {
        panic!(rt; "another fault of {len} bytes");
    }
}

/// Returns the file of the answers with these words.
fn answers_with(alloc: Global, words: &[(u16, u32)]) -> Result<Vec<u8>, AllocError> {
    let mut bytes = answers().third_file(alloc)?;
    put_words(&mut bytes, words);
    Ok(bytes)
}

/// Words of the file of the answers, and its first fault without a disk.
const WITHOUT_DISK: [Turned; 4] = [
    (&[], Fault::Version(4)),
    (&[(0, 0)], Fault::Magic(0)),
    (&[(12, 4_000_001)], Fault::Version(4)),
    (&[(4, 2)], Fault::Event(1064)),
];

/// Returns the first row that has another fault without a disk, if there is one.
fn row_that_is_read(alloc: Global) -> Option<usize> {
    for (row, (words, fault)) in WITHOUT_DISK.iter().enumerate() {
        match answers_with(alloc, words) {
            Ok(bytes) => {
                if read(alloc, &bytes).err() != Some(*fault) {
                    return Some(row);
                }
            }
            Err(_) => return Some(row),
        }
    }
    None
}

#[test]
fn reads_no_file_of_version_3_without_a_disk(rt: HostRuntime) {
    check_rows(&rt, row_that_is_read(rt.alloc()));
}
