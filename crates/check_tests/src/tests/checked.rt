//! The check of a recording file by some number of workers.

use oberon_check::{CheckFault, Gate, Report, check_bytes};
use std::alloc::Global;
use std::process::Abort;
use std::sync::Wait;
use std::thread::Threads;

/// How a check is shared: the number of workers, and the number of segments in a job.
#[derive(Clone, Copy)]
pub(crate) struct Crew {
    pub workers: u32,
    pub cut: u32,
}

/// Returns the line and the status of a file. There are 1 to 64 workers, and a job has at least one segment.
pub(crate) fn checked<R: Threads + Wait + Sync, G: Gate + Sync>(
    rt: &R,
    alloc: Global,
    bytes: &[u8],
    crew: Crew,
    gate: &G,
) -> Result<Report, CheckFault> {
    let workers = crew.workers.min(64).max(1);
    check_bytes(rt, alloc, bytes, workers, crew.cut.max(1), gate)
}

/// Checks a line.
pub(crate) fn is_line(rt: &impl Abort, written: &[u8], line: &[u8]) {
    assert_eq!(rt; written, line);
}
