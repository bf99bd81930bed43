//! A run that goes on from the end of a past: the live machine.
ghost use Rattle.std.specs.Prelude.{◌≡◌, ◌≢◌, ◌≤◌, ◌<◌, ◌⊎◌, ◌↔◌, IfErr, IfOk, OnErr, OnOk, drop, length, take};
ghost use Rattle.oberon_past.specs.Past.{IsLonger};
ghost use Rattle.galluspa.specs.Live.{RunsOn};
ghost use Rattle.galluspa.specs.Past.{Holds, HoldsBoth, IsClosed, Keeps};

use crate::front::copy_to_front;
use crate::refusal::{CLOSED, DONE, MORE, NO_ROOM, OUT_OF_MEMORY, OUT_OF_RANGE, RangeOrMemory};
use crate::sealed::RawPast;
use oberon_past::{Ending, Past, PastFault, Steps};
use std::alloc::Global;

/// Runs a past on, as `galluspa_past_run` does.
fn run_past(
    alloc: Global,
    past: &mut Past,
    to: u64,
    budget: u64,
    sent: &mut [u8],
    sent_count: &mut usize,
) -> Result<Ending, RangeOrMemory>
    ensures ran { IfOk result (λ ending.
        RunsOn to (length sent.old) (take sent_count.new sent.new) ending past.old past.new) }
    ensures room { OnOk result (sent_count.new ≤ length sent.old) }
    ensures rest { drop sent_count.new sent.new ≡ drop sent_count.new sent.old }
    ensures unsent { OnErr result ((sent.new ≡ sent.old) × (sent_count.new ≡ sent_count.old)) }
    ensures longer { OnErr result (IsLonger past.old past.new) }
    ensures unmoved { IfErr result (λ refusal. refusal ≡ RangeOrMemory.Range → past.new ≡ past.old) }
    ensures in_range { OnOk result ((0 < budget) × (past.old.end ≤ to)) }
    ensures memory { IfErr result (λ refusal. refusal ≡ RangeOrMemory.Memory → (0 < budget) × (past.old.end ≤ to)) }
    ensures range { IfErr result (λ refusal. refusal ≡ RangeOrMemory.Range → (budget ≡ 0) ⊎ (to < past.old.end)) }
{
    let Some(budget) = Steps::new(budget) else {
        return Err(RangeOrMemory::Range);
    };
    if to < past.extent().end {
        return Err(RangeOrMemory::Range);
    }
    match past.run(alloc, to, budget, sent.len()) {
        Ok(progress) => {
            copy_to_front(&progress.sent, sent);
            *sent_count = progress.sent.len();
            Ok(progress.ending)
        }
        Err(PastFault::Memory) => Err(RangeOrMemory::Memory),
        Err(_) => unreachable!(),
    }
}

/// Runs a past on from its end to the count `to`, which becomes its end, and returns 0 (`DONE`). The bytes that the machine sends on
/// the way are written to the front of `sent`, and their number to `sent_count`.
///
/// It may end before `to`, and then the end is the count that it reached, and the bytes up to it are written: the result is 12
/// (`MORE`) if it did `budget` instructions or came to the next keyframe, which it adds, and 2 (`NO_ROOM`) if the next instruction
/// sends a byte for which there is no room. A call with the same numbers goes on from there.
///
/// Otherwise nothing is written, and the end stays. The result is 13 (`CLOSED`) if no past is open, 1 (`OUT_OF_RANGE`) if the budget
/// is 0 or `to` is below the end; then the past stays as it is. It is 3 (`OUT_OF_MEMORY`) if memory ran out: then keyframes may have been
/// added.
#[unsafe(no_mangle)]
pub extern "C" fn galluspa_past_run(
    alloc: Global,
    past: &mut RawPast,
    to: u64,
    budget: u64,
    sent: &mut [u8],
    sent_count: &mut usize,
) -> u8
    ensures done { result ≡ DONE →
        HoldsBoth (RunsOn to (length sent.old) (take sent_count.new sent.new) Ending.Done) past.old past.new }
    ensures more { result ≡ MORE →
        HoldsBoth (RunsOn to (length sent.old) (take sent_count.new sent.new) Ending.More) past.old past.new }
    ensures no_room { result ≡ NO_ROOM →
        HoldsBoth (RunsOn to (length sent.old) (take sent_count.new sent.new) Ending.NoRoom) past.old past.new }
    ensures room { (result ≡ DONE) ⊎ (result ≡ MORE) ⊎ (result ≡ NO_ROOM) → sent_count.new ≤ length sent.old }
    ensures rest { drop sent_count.new sent.new ≡ drop sent_count.new sent.old }
    ensures unsent { result ≢ DONE → result ≢ MORE → result ≢ NO_ROOM →
        (sent.new ≡ sent.old) × (sent_count.new ≡ sent_count.old) }
    ensures longer { (result ≡ OUT_OF_RANGE) ⊎ (result ≡ OUT_OF_MEMORY) → HoldsBoth IsLonger past.old past.new }
    ensures unmoved { result ≡ OUT_OF_RANGE → Keeps past.old past.new }
    ensures kept { result ≡ CLOSED → past.new ≡ past.old }
    ensures closed { result ≡ CLOSED ↔ IsClosed past.old }
    ensures range { result ≡ OUT_OF_RANGE → (budget ≡ 0) ⊎ Holds (λ p. to < p.end) past.old }
    ensures in_range { result ≢ CLOSED → result ≢ OUT_OF_RANGE → (0 < budget) × Holds (λ p. p.end ≤ to) past.old }
    ensures codes { (result ≤ OUT_OF_MEMORY) ⊎ (result ≡ MORE) ⊎ (result ≡ CLOSED) }
{
    let Some(mut here) = past.take(alloc) else {
        return CLOSED;
    };
    let ran = run_past(alloc, &mut here, to, budget, sent, sent_count);
    past.put(here);
    match ran {
        Ok(Ending::Done) => DONE,
        Ok(Ending::More) => MORE,
        Ok(Ending::NoRoom) => NO_ROOM,
        Err(RangeOrMemory::Range) => OUT_OF_RANGE,
        Err(RangeOrMemory::Memory) => OUT_OF_MEMORY,
    }
}
