//! Checks of files of version 3, which has answers of a disk, with a disk and without.

use super::checked::is_line;
use oberon_check::{FreeGate, Versions, check_bytes, check_bytes_in};
use recording_texts::{ANSWERED_JUMPS, Claim, FIRST_PAGE, JUMPS, Sketch};
use std::alloc::Global;
use std::process::Abort;
use std::sync::Wait;
use std::test::Fail;
use std::thread::Threads;

/// The same jumps, with the claim that the disk has not answered.
const FORGOTTEN_ANSWER: Sketch<'static> = Sketch {
    claims: &[
        FIRST_PAGE,
        Claim {
            count: 10,
            ..FIRST_PAGE
        },
    ],
    ..ANSWERED_JUMPS
};

/// Recordings, each with the line and the status of its check.
const CHECKED: [(Sketch<'static>, &[u8], u8); 3] = [
    (JUMPS, b"accepted 10 checkpoints 100 steps\n", 0),
    (ANSWERED_JUMPS, b"accepted 1 checkpoints 10 steps\n", 0),
    (FORGOTTEN_ANSWER, b"false checkpoint 1 at 10 part disk\n", 1),
];

/// Checks the line and the status of a file with a disk, by one worker and by three.
fn has_line<R: Abort + Threads + Wait + Sync>(
    rt: &R,
    alloc: Global,
    file: &[u8],
    line: &[u8],
    status: u8,
) -> Result<(), Fail> {
    for workers in [1, 3] {
        let report = check_bytes_in(rt, alloc, Versions::WithDisk, file, workers, 1, &FreeGate)?;
        is_line(rt, &report.line, line);
        assert_eq!(rt; report.status, status);
    }
    Ok(())
}

#[test]
fn files_of_version_3_have_a_verdict_with_a_disk(rt: HostRuntime) -> Result<(), Fail> {
    for (recording, line, status) in CHECKED {
        let file = recording.third_file(rt.alloc())?;
        has_line(&rt, rt.alloc(), &file, line, status)?;
    }
    Ok(())
}

#[test]
fn files_of_version_3_are_refused_without_a_disk(rt: HostRuntime) -> Result<(), Fail> {
    for (recording, _, _) in CHECKED {
        let file = recording.third_file(rt.alloc())?;
        let report = check_bytes(&rt, rt.alloc(), &file, 2, 1, &FreeGate)?;
        is_line(&rt, &report.line, b"refused 3 version at byte 4\n");
        assert_eq!(rt; report.status, 2);
    }
    Ok(())
}

#[test]
fn earlier_files_have_their_verdict_with_a_disk(rt: HostRuntime) -> Result<(), Fail> {
    let (_, line, status) = CHECKED[0];
    for file in [
        JUMPS.first_file(rt.alloc())?,
        JUMPS.second_file(rt.alloc())?,
    ] {
        has_line(&rt, rt.alloc(), &file, line, status)?;
    }
    Ok(())
}
