//! The check of a recording file: the verdict line and the exit status.
//!
//! This module has what is printed. `oberon_format` decodes the file, and `check` checks the recording.
ghost use Rattle.std.specs.Prelude.{◌≡◌, ◌≤◌, IfOk};
ghost use Rattle.oberon_check.specs.Headline.{IsLineOf};
ghost use Rattle.oberon_check.specs.HeadlineWithDisk.{IsLineIn};
ghost use Rattle.oberon_check.specs.Line.{line_of, status_of};

use crate::check::{CheckFault, check_recording};
use crate::gate::Gate;
use crate::verdict::Verdict;
use crate::versions::Versions;
use oberon_format::{Fault, refusal};
use std::alloc::Global;
use std::sync::Wait;
use std::thread::Threads;

/// What a check prints, and the exit status of a program that prints it.
#[derive(Debug, Drop)]
pub struct Report {
    /// The line, ended by a line feed.
    pub line: Vec<u8>,
    /// The status: 0 accepted, 1 false, 2 refused.
    pub status: u8,
}

/// Checks the bytes of a recording file, and returns the line to print with the exit status.
///
/// If the bytes encode a recording, the line is the verdict of one uninterrupted replay from checkpoint 0. If not, it names the
/// first rule that they break. Any bytes will do. The answer depends neither on `workers`, 1 to 64 threads (`MAX_WORKERS`), nor on
/// `cut`, the number of consecutive segments in a job. The gate is called before each job. It returns `Memory` only if memory runs
/// out.
pub fn check_bytes<R: Threads + Wait + Sync, G: Gate + Sync>(
    rt: &R,
    alloc: Global,
    bytes: &[u8],
    workers: u32,
    cut: u32,
    gate: &G,
) -> Result<Report, CheckFault>
    requires workers { (1 ≤ workers) × (workers ≤ 64) }
    requires cut { 1 ≤ cut }
    ensures { IfOk result (λ report. IsLineOf bytes.now report.line.items report.status) }
{
    check_bytes_in(rt, alloc, Versions::WithoutDisk, bytes, workers, cut, gate)
}

/// Checks the bytes of a recording file in one of these versions, as `check_bytes` does those of versions 1 and 2.
pub fn check_bytes_in<R: Threads + Wait + Sync, G: Gate + Sync>(
    rt: &R,
    alloc: Global,
    versions: Versions,
    bytes: &[u8],
    workers: u32,
    cut: u32,
    gate: &G,
) -> Result<Report, CheckFault>
    requires workers { (1 ≤ workers) × (workers ≤ 64) }
    requires cut { 1 ≤ cut }
    ensures { IfOk result (λ report. IsLineIn versions bytes.now report.line.items report.status) }
{
    match versions.read(alloc, bytes) {
        Ok(r) => {
            let verdict = check_recording(rt, alloc, &r, workers, cut, gate)?;
            answered(alloc, &verdict)
        }
        Err(Fault::Memory) => Err(CheckFault::Memory),
        Err(fault) => Ok(Report {
            line: refusal(alloc, &fault)?,
            status: 2,
        }),
    }
}

/// Returns the report on a recording with this verdict.
fn answered(alloc: Global, verdict: &Verdict) -> Result<Report, CheckFault>
    ensures { IfOk result (λ report.
        (report.line.items ≡ line_of verdict.now) × (report.status ≡ status_of verdict.now)) }
{
    Ok(Report {
        line: verdict.line(alloc)?,
        status: verdict.status(),
    })
}
