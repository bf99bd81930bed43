//! The option `--disk`: with it a command takes version 3, and without it refuses that.

use oberon_cli::serve;
use recording_texts::{ANSWERED_JUMPS, STORED_RUN};
use std::alloc::Global;
use std::process::Abort;
use std::sync::Wait;
use std::test::Fail;
use std::thread::Threads;

/// Checks what a command writes for a file, and its status.
fn answers<R: Abort + Threads + Wait + Sync>(
    rt: &R,
    alloc: Global,
    arguments: &[&str],
    mut file: &[u8],
    (wanted, status): (&[u8], u8),
) {
    let mut output = Vec::new(alloc);
    let ended = serve(rt, alloc, arguments, &mut file, &mut output);
    assert_eq!(rt; output.as_slice(), wanted);
    assert_eq!(rt; ended, status);
}

const REFUSED: &[u8] = b"refused 3 version at byte 4\n";

/// Arguments, with what they write for a file of version 3, and the status.
const LINES: [(&[&str], &[u8], u8); 6] = [
    (
        &["check", "--disk"],
        b"accepted 1 checkpoints 10 steps\n",
        0,
    ),
    (&["screen", "--disk", "--at=2"], b"no checkpoint 2\n", 2),
    (&[], REFUSED, 2),
    (&["check"], REFUSED, 2),
    (&["screen", "--at=2"], REFUSED, 2),
    (&["migrate"], REFUSED, 2),
];

#[test]
fn only_the_option_takes_version_3(rt: HostRuntime) -> Result<(), Fail> {
    let file = ANSWERED_JUMPS.third_file(rt.alloc())?;
    for (arguments, line, status) in LINES {
        answers(&rt, rt.alloc(), arguments, &file, (line, status));
    }
    Ok(())
}

#[test]
fn files_of_each_version_are_migrated_to_version_3(rt: HostRuntime) -> Result<(), Fail> {
    let migrated = STORED_RUN.third_file(rt.alloc())?;
    for file in [
        STORED_RUN.first_file(rt.alloc())?,
        STORED_RUN.second_file(rt.alloc())?,
        STORED_RUN.third_file(rt.alloc())?,
    ] {
        answers(
            &rt,
            rt.alloc(),
            &["migrate", "--disk"],
            &file,
            (&migrated, 0),
        );
    }
    Ok(())
}

/// A session of version 3: a jump to itself, while the disk answers 1,000 at count 5.
const SESSION: &str = "{\"format\":\"oberon-session\",\"version\":3,\
    \"start\":{\"R\":[0,0,0,0,0,0,0,0,0,0,0,0,0,0,0,0],\"H\":0,\"PC\":0,\"flags\":0,\"rate\":0,\"phase\":0,\"disk\":255},\
    \"pages\":[{\"at\":0,\"hex\":\"ffffffe7\"}],\"inputs\":[[5,\"disk\",1000]],\"checkpoints\":[10]}";

#[test]
fn a_session_of_version_3_is_recorded(rt: HostRuntime) -> Result<(), Fail> {
    let recorded = ANSWERED_JUMPS.third_file(rt.alloc())?;
    let session = SESSION.as_bytes();
    answers(
        &rt,
        rt.alloc(),
        &["record", "--disk"],
        session,
        (&recorded, 0),
    );
    answers(
        &rt,
        rt.alloc(),
        &["record"],
        session,
        (b"session refused 2 shape\n", 2),
    );
    Ok(())
}
