//! The state at a count of a past, in the memory of a caller.
ghost use Rattle.std.specs.Prelude.{◌≡◌, ◌≢◌, ◌≤◌, ◌<◌, ◌⊎◌, ◌↔◌, IfErr, OnErr, OnOk, drop, length};
ghost use Rattle.oberon_past.specs.Past.{IsInside, IsLonger, first_asked, last_asked};
ghost use Rattle.galluspa.specs.Past.{HasMoment, Holds, HoldsBoth, IsClosed, NeedsPages, from_of};
ghost use Rattle.galluspa.specs.inner.Moments.{IsUnseen};

use crate::claims::RawPage;
use crate::moments::{Unseen, from_of, write_moment};
use crate::raw::RawState;
use crate::refusal::{CLOSED, DONE, LATER, MORE, NO_ROOM, OUT_OF_MEMORY, OUT_OF_RANGE};
use crate::sealed::RawPast;
use oberon_past::{Answer, Past, Steps};
use std::alloc::Global;

/// Asks a past for the state at a count, as `galluspa_past_at` does.
fn look_at(
    alloc: Global,
    past: &mut Past,
    at: u64,
    from: u64,
    budget: u64,
    state: &mut RawState,
    slots: &mut [u16; 1024],
    changed: &mut [RawPage],
    changed_count: &mut usize,
) -> Result<(), Unseen>
    ensures moment { OnOk result (HasMoment past.old.run at (from_of from) state.new slots.new changed.new changed_count.new) }
    ensures inside { OnOk result ((0 < budget) × IsInside past.old.run past.old.end at (from_of from)) }
    ensures slots_rest { OnOk result (drop changed_count.new slots.new ≡ drop changed_count.new slots.old) }
    ensures rest { OnOk result (drop changed_count.new changed.new ≡ drop changed_count.new changed.old) }
    ensures room { OnOk result (changed_count.new ≤ length changed.old) }
    ensures refused { IfErr result (IsUnseen past.old at at (from_of from) budget (length changed.old) changed_count.new) }
    ensures unchanged { OnErr result ((state.new ≡ state.old) × (slots.new ≡ slots.old) × (changed.new ≡ changed.old)) }
    ensures uncounted { IfErr result (λ refusal. refusal ≢ Unseen.Room → changed_count.new ≡ changed_count.old) }
    ensures longer { IsLonger past.old past.new }
    ensures more { IfErr result (λ refusal. refusal ≡ Unseen.More → past.old.keyframes < past.new.keyframes) }
{
    let Some(budget) = Steps::new(budget) else {
        return Err(Unseen::Range);
    };
    match past.at(alloc, at, from_of(from), budget)? {
        Answer::Done(moment) => write_moment(&moment, state, slots, changed, changed_count),
        Answer::More => Err(Unseen::More),
        Answer::Later => Err(Unseen::Later),
        Answer::Earlier => Err(Unseen::Range),
    }
}

/// Writes the state at a count, and to the front of `changed` the pages of its memory that differ from those at the count `from`,
/// each with its slot at the same index of `slots`, and their number to `changed_count`. Returns 0 (`DONE`). If `from` is 2^64 - 1
/// (`NO_COUNT`), the pages that are not zeros are written. What is after them stays as it was.
///
/// All of it is of the one run of the past, whatever was asked before. The past runs on and adds keyframes as it needs them, up to
/// `budget` instructions, and then the result is 12 (`MORE`): the call with the same numbers goes on from there.
///
/// Unless the result is `DONE`, nothing is written but the number of pages, if there is too little room for them: then it is 2
/// (`NO_ROOM`). It is 13 (`CLOSED`) if no past is open, 1 (`OUT_OF_RANGE`) if the budget is 0 or one of the counts is before the
/// first, 14 (`LATER`) if one of them is after the end, and 3 (`OUT_OF_MEMORY`) if memory ran out. The past stays open, of the same
/// run.
#[unsafe(no_mangle)]
pub extern "C" fn galluspa_past_at(
    alloc: Global,
    past: &mut RawPast,
    at: u64,
    from: u64,
    budget: u64,
    state: &mut RawState,
    slots: &mut [u16; 1024],
    changed: &mut [RawPage],
    changed_count: &mut usize,
) -> u8
    ensures moment { result ≡ DONE →
        Holds (λ p. HasMoment p.run at (from_of from) state.new slots.new changed.new changed_count.new) past.old }
    ensures slots_rest { result ≡ DONE → drop changed_count.new slots.new ≡ drop changed_count.new slots.old }
    ensures rest { result ≡ DONE → drop changed_count.new changed.new ≡ drop changed_count.new changed.old }
    ensures room { result ≡ DONE → changed_count.new ≤ length changed.old }
    ensures no_room { result ≡ NO_ROOM →
        Holds (λ p. NeedsPages p.run at (from_of from) (length changed.old) changed_count.new) past.old }
    ensures unchanged { result ≢ DONE → (state.new ≡ state.old) × (slots.new ≡ slots.old) × (changed.new ≡ changed.old) }
    ensures uncounted { result ≢ DONE → result ≢ NO_ROOM → changed_count.new ≡ changed_count.old }
    ensures closed { result ≡ CLOSED ↔ IsClosed past.old }
    ensures range { result ≡ OUT_OF_RANGE →
        (budget ≡ 0) ⊎ Holds (λ p. first_asked at (from_of from) < p.run.start) past.old }
    ensures some { result ≢ CLOSED → result ≢ OUT_OF_RANGE → 0 < budget }
    ensures later { result ≡ LATER →
        Holds (λ p. (p.run.start ≤ first_asked at (from_of from)) × (p.end < last_asked at (from_of from))) past.old }
    ensures inside { result ≢ CLOSED → result ≢ OUT_OF_RANGE → result ≢ LATER →
        Holds (λ p. IsInside p.run p.end at (from_of from)) past.old }
    ensures longer { result ≢ CLOSED → HoldsBoth IsLonger past.old past.new }
    ensures more { result ≡ MORE → HoldsBoth (λ old new. old.keyframes < new.keyframes) past.old past.new }
    ensures kept { result ≡ CLOSED → past.new ≡ past.old }
    ensures codes { (result ≤ OUT_OF_MEMORY) ⊎ ((MORE ≤ result) × (result ≤ LATER)) }
{
    let Some(mut here) = past.take(alloc) else {
        return CLOSED;
    };
    let looked = look_at(
        alloc,
        &mut here,
        at,
        from,
        budget,
        state,
        slots,
        changed,
        changed_count,
    );
    past.put(here);
    match looked {
        Ok(()) => DONE,
        Err(Unseen::Range) => OUT_OF_RANGE,
        Err(Unseen::Later) => LATER,
        Err(Unseen::More) => MORE,
        Err(Unseen::Room) => NO_ROOM,
        Err(Unseen::Memory) => OUT_OF_MEMORY,
    }
}
