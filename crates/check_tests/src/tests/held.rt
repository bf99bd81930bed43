//! Checks by two workers, with jobs of one segment and a gate that holds some of them.

use super::checked::{Crew, checked, is_line};
use super::gates::{Hold, HoldingGate, counters};
use super::jumps::Written;
use oberon_check::{Verdict, check_recording};
use oberon_format::Recording;
use std::alloc::Global;
use std::process::Abort;
use std::sync::Wait;
use std::sync::atomic::{AtomicU64, Ordering};
use std::test::Fail;
use std::thread::Threads;

const TWO: Crew = Crew { workers: 2, cut: 1 };

/// The number of jobs of the longest recording in these tests.
const JOBS: u32 = 10;

/// Returns the verdict on the recording of a file, and how many held jobs met the others.
pub(crate) fn held_verdict<R: Threads + Wait + Sync>(
    rt: &R,
    alloc: Global,
    written: &Written<'_>,
    holds: &[Hold<'_>],
) -> Result<(Verdict, u64), Fail> {
    let r = written.recording(alloc)?;
    verdict_of(rt, alloc, &r, holds)
}

/// Returns the verdict on a recording, and how many held jobs met the others.
fn verdict_of<R: Threads + Wait + Sync>(
    rt: &R,
    alloc: Global,
    r: &Recording,
    holds: &[Hold<'_>],
) -> Result<(Verdict, u64), Fail> {
    let begun = counters(alloc, JOBS)?;
    let met = AtomicU64::new(0);
    let gate = HoldingGate {
        holds,
        begun: begun.as_slice(),
        met: &met,
    };
    let verdict = check_recording(rt, alloc, r, 2, 1, &gate)?;
    Ok((verdict, met.load(Ordering::SeqCst)))
}

/// Encodes a recording, checks the line and the status of the file, and returns how many held jobs met the others.
pub(crate) fn held_line<R: Abort + Threads + Wait + Sync>(
    rt: &R,
    alloc: Global,
    written: &Written<'_>,
    holds: &[Hold<'_>],
    expected: (&[u8], u8),
) -> Result<u64, Fail> {
    let bytes = written.bytes(alloc)?;
    meets(rt, alloc, &bytes, holds, expected)
}

/// Checks the line and the status of a file, and returns how many held jobs met the others.
fn meets<R: Abort + Threads + Wait + Sync>(
    rt: &R,
    alloc: Global,
    bytes: &[u8],
    holds: &[Hold<'_>],
    (line, status): (&[u8], u8),
) -> Result<u64, Fail> {
    let begun = counters(alloc, JOBS)?;
    let met = AtomicU64::new(0);
    let gate = HoldingGate {
        holds,
        begun: begun.as_slice(),
        met: &met,
    };
    let report = checked(rt, alloc, bytes, TWO, &gate)?;
    is_line(rt, report.line.as_slice(), line);
    assert!(rt; report.status == status, "another status");
    Ok(met.load(Ordering::SeqCst))
}
