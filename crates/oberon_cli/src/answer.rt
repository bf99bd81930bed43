//! What each command answers to the bytes of its input. Reading them, and writing the answer, is in `service`.
ghost use Rattle.std.specs.Prelude.{◌≡◌, IfOk};
ghost use Rattle.oberon_cli.specs.Answer.{IsAnswer};
ghost use Rattle.oberon_cli.specs.inner.Requests.{IsWithinLimits};

use crate::arguments::Request;
use oberon_answers::{Answer, migrate_in, record_in, screen_in};
use oberon_check::{CheckFault, FreeGate, Report, check_bytes_in};
use oberon_shards::{combine_lines, shard_line_in};
use std::alloc::{AllocError, Global};
use std::sync::Wait;
use std::thread::Threads;

/// Returns the answer of a command to the bytes of an input. Fails only if memory runs out.
pub fn answer<H: Threads + Wait + Sync>(
    rt: &H,
    alloc: Global,
    request: Request,
    bytes: &[u8],
) -> Result<Answer, AllocError>
    requires { IsWithinLimits request }
    ensures { IfOk result (λ answer. IsAnswer request bytes.now answer.bytes.items answer.status) }
{
    match request {
        Request::Check {
            versions,
            workers,
            cut,
        } => {
            match check_bytes_in(rt, alloc, versions, bytes, workers, cut, &FreeGate) {
                Ok(report) => Ok(reported(report)),
                Err(CheckFault::Memory) => Err(AllocError),
            }
        }
        Request::Shard {
            versions,
            index,
            of,
        } => {
            let input = &bytes[..bytes.len().min(request.limit())];
            Ok(reported(shard_line_in(alloc, versions, input, index, of)?))
        }
        Request::Combine => Ok(reported(combine_lines(alloc, bytes)?)),
        Request::Record { versions } => record_in(alloc, versions, bytes),
        Request::Screen { versions, at } => screen_in(alloc, versions, bytes, at),
        Request::Migrate { versions } => migrate_in(alloc, versions, bytes),
    }
}

/// Returns a line with its status as an answer.
fn reported(report: Report) -> Answer
    ensures { (result.bytes.items ≡ report.line.items) × (result.status ≡ report.status) }
{
    let Report { line, status } = report;
    Answer {
        bytes: line,
        status,
    }
}
