//! A second past of the same run, up to a count.
ghost use Rattle.std.specs.Prelude.{◌≡◌, ◌≢◌, ◌≤◌, ◌<◌, ◌⊎◌, ◌↔◌, IfErr, IfOk};
ghost use Rattle.oberon_past.specs.Live.{IsBranchFault, IsUpTo};
ghost use Rattle.galluspa.specs.Past.{Holds, HoldsBoth, IsClosed, Keeps};

use crate::past::boxed;
use crate::refusal::{CLOSED, DONE, LATER, OUT_OF_MEMORY, OUT_OF_RANGE};
use crate::sealed::RawPast;
use oberon_past::{Past, PastFault};
use std::alloc::Global;

/// Makes a branch of a past, in a box.
fn branched(alloc: Global, past: &Past, at: u64) -> Result<Box<Past>, PastFault>
    ensures branch { IfOk result (λ branch. IsUpTo at past.now branch.value) }
    ensures refused { IfErr result (IsBranchFault past.now at) }
{
    let branch = past.branch(alloc, at)?;
    Ok(boxed(alloc, branch)?)
}

/// Makes a second past of the same run up to a count, with the inputs before it and the keyframes up to it, and opens it in `branch`.
/// It shares nothing with the first. A past that is open in `branch` is closed first. Returns 0 (`DONE`).
///
/// Otherwise none is open in `branch`. The result is 13 (`CLOSED`) if none is open in `past`, 1 (`OUT_OF_RANGE`) if the count is
/// before the first, 14 (`LATER`) if it is after the end, and 3 (`OUT_OF_MEMORY`) if the past has the count and memory ran out.
#[unsafe(no_mangle)]
pub extern "C" fn galluspa_past_branch(
    alloc: Global,
    past: &mut RawPast,
    at: u64,
    branch: &mut RawPast,
) -> u8
    ensures branch { result ≡ DONE → HoldsBoth (IsUpTo at) past.old branch.new }
    ensures no_branch { result ≢ DONE → IsClosed branch.new }
    ensures kept { Keeps past.old past.new }
    ensures closed { result ≡ CLOSED ↔ IsClosed past.old }
    ensures range { result ≡ OUT_OF_RANGE → Holds (λ p. at < p.run.start) past.old }
    ensures later { result ≡ LATER → Holds (λ p. p.end < at) past.old }
    ensures memory { result ≡ OUT_OF_MEMORY → Holds (λ p. (p.run.start ≤ at) × (at ≤ p.end)) past.old }
    ensures codes { (result ≤ OUT_OF_RANGE) ⊎ (result ≡ OUT_OF_MEMORY) ⊎ (result ≡ CLOSED) ⊎ (result ≡ LATER) }
{
    branch.close(alloc);
    let Some(here) = past.take(alloc) else {
        return CLOSED;
    };
    let made = branched(alloc, &here, at);
    past.put(here);
    match made {
        Ok(made) => {
            branch.put(made);
            DONE
        }
        Err(PastFault::Later) => LATER,
        Err(PastFault::Memory) => OUT_OF_MEMORY,
        Err(_) => OUT_OF_RANGE,
    }
}
