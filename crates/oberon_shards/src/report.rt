//! What the program prints: the line of a shard, and what lines of shards combine to.
ghost use Rattle.std.specs.Prelude.{◌≡◌, ◌≤◌, ◌<◌, IfOk, length};
ghost use Rattle.oberon_shards.specs.Combination.{IsCombination, IsShardReport, IsShardReportIn, IsTextFault, combine_fault_line};

use crate::border::MAX_SHARDS;
use crate::combining::combine;
use crate::fault::{CombineFault, LONGEST_SHARDS};
use crate::reading::read_shards;
use crate::sharding::check_shard_in;
use oberon_check::{Report, Versions};
use std::alloc::{AllocError, Global};

/// Returns the line of shard `index` of `of` of the bytes of a recording file, with the status 0: an engine must not repeat a true
/// answer. It fails only if memory runs out.
pub fn shard_line(alloc: Global, bytes: &[u8], index: u32, of: u32) -> Result<Report, AllocError>
    requires { (1 ≤ index) × (index ≤ of) × (of ≤ MAX_SHARDS) }
    ensures { IfOk result (λ report. IsShardReport bytes.now index of report.line.items report.status) }
{
    shard_line_in(alloc, Versions::WithoutDisk, bytes, index, of)
}

/// Returns that line for a file in one of these versions.
pub fn shard_line_in(
    alloc: Global,
    versions: Versions,
    bytes: &[u8],
    index: u32,
    of: u32,
) -> Result<Report, AllocError>
    requires { (1 ≤ index) × (index ≤ of) × (of ≤ MAX_SHARDS) }
    ensures { IfOk result (λ report. IsShardReportIn versions bytes.now index of report.line.items report.status) }
{
    let shard = check_shard_in(alloc, versions, bytes, index, of)?;
    Ok(Report {
        line: shard.text(alloc)?,
        status: 0,
    })
}

/// Returns the line that lines of shards combine to, with the status of a check; or the line of the first fault, with status 2. It
/// fails only if memory runs out.
pub fn combine_lines(alloc: Global, text: &[u8]) -> Result<Report, AllocError>
    ensures { IfOk result (λ report. IsCombination text.now report.line.items report.status) }
{
    if text.len() > LONGEST_SHARDS {
        return refused(alloc, CombineFault::Long);
    }
    let mut shards = Vec::new(alloc);
    let rest = read_shards(alloc, text, &mut shards)?;
    if !rest.is_empty() {
        return refused(alloc, CombineFault::Syntax(shards.len() + 1));
    }
    match combine(&shards) {
        Ok(shard) => Ok(Report {
            line: Vec::from_slice(alloc, &shard.line)?,
            status: shard.finding.status(),
        }),
        Err(fault) => refused(alloc, fault),
    }
}

/// Returns the line of a fault, with its status.
fn refused(alloc: Global, fault: CombineFault) -> Result<Report, AllocError>
    ensures { IfOk result (λ report. (report.line.items ≡ combine_fault_line fault) × (report.status ≡ 2)) }
{
    Ok(Report {
        line: fault.line(alloc)?,
        status: 2,
    })
}
