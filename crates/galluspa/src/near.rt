//! The state at the last keyframe of a past at or before a count, in the memory of a caller.
ghost use Rattle.std.specs.Prelude.{◌≡◌, ◌≢◌, ◌≤◌, ◌<◌, ◌⊎◌, ◌↔◌, IfErr, OnErr, OnOk, drop, length};
ghost use Rattle.oberon_past.specs.Past.{IsFar, IsInside, first_asked, last_asked, nearest_count};
ghost use Rattle.galluspa.specs.Past.{HasMoment, Holds, IsClosed, Keeps, NeedsPages, from_of};
ghost use Rattle.galluspa.specs.inner.Moments.{IsUnseen};

use crate::claims::RawPage;
use crate::moments::{Unseen, from_of, write_moment};
use crate::raw::RawState;
use crate::refusal::{CLOSED, DONE, LATER, MORE, NO_ROOM, OUT_OF_MEMORY, OUT_OF_RANGE};
use crate::sealed::RawPast;
use oberon_past::{Answer, Past};
use std::alloc::Global;

/// Asks a past for the state at its last keyframe at or before a count, as `galluspa_past_near` does.
fn look_near(
    alloc: Global,
    past: &Past,
    at: u64,
    from: u64,
    state: &mut RawState,
    slots: &mut [u16; 1024],
    changed: &mut [RawPage],
    changed_count: &mut usize,
) -> Result<(), Unseen>
    ensures moment { OnOk result
        (HasMoment past.now.run (nearest_count past.now at) (from_of from) state.new slots.new changed.new changed_count.new) }
    ensures inside { OnOk result (IsInside past.now.run past.now.end at (from_of from)) }
    ensures slots_rest { OnOk result (drop changed_count.new slots.new ≡ drop changed_count.new slots.old) }
    ensures rest { OnOk result (drop changed_count.new changed.new ≡ drop changed_count.new changed.old) }
    ensures room { OnOk result (changed_count.new ≤ length changed.old) }
    ensures refused { IfErr result
        (IsUnseen past.now at (nearest_count past.now at) (from_of from) 1 (length changed.old) changed_count.new) }
    ensures far { IfErr result (λ refusal. refusal ≡ Unseen.More → IsFar past.now (from_of from)) }
    ensures unchanged { OnErr result ((state.new ≡ state.old) × (slots.new ≡ slots.old) × (changed.new ≡ changed.old)) }
    ensures uncounted { IfErr result (λ refusal. refusal ≢ Unseen.Room → changed_count.new ≡ changed_count.old) }
{
    match past.near(alloc, at, from_of(from))? {
        Answer::Done(moment) => write_moment(&moment, state, slots, changed, changed_count),
        Answer::More => Err(Unseen::More),
        Answer::Later => Err(Unseen::Later),
        Answer::Earlier => Err(Unseen::Range),
    }
}

/// Writes the state at the last keyframe at or before a count, and its pages, as `galluspa_past_at` does, at once. The count of the
/// state says which count that is.
///
/// The results are those of `galluspa_past_at`; it is 12 (`MORE`) if no keyframe is near the count `from`: then ask
/// `galluspa_past_at` about it.
#[unsafe(no_mangle)]
pub extern "C" fn galluspa_past_near(
    alloc: Global,
    past: &mut RawPast,
    at: u64,
    from: u64,
    state: &mut RawState,
    slots: &mut [u16; 1024],
    changed: &mut [RawPage],
    changed_count: &mut usize,
) -> u8
    ensures moment { result ≡ DONE →
        Holds (λ p. HasMoment p.run (nearest_count p at) (from_of from) state.new slots.new changed.new changed_count.new) past.old }
    ensures slots_rest { result ≡ DONE → drop changed_count.new slots.new ≡ drop changed_count.new slots.old }
    ensures rest { result ≡ DONE → drop changed_count.new changed.new ≡ drop changed_count.new changed.old }
    ensures room { result ≡ DONE → changed_count.new ≤ length changed.old }
    ensures no_room { result ≡ NO_ROOM →
        Holds (λ p. NeedsPages p.run (nearest_count p at) (from_of from) (length changed.old) changed_count.new) past.old }
    ensures unchanged { result ≢ DONE → (state.new ≡ state.old) × (slots.new ≡ slots.old) × (changed.new ≡ changed.old) }
    ensures uncounted { result ≢ DONE → result ≢ NO_ROOM → changed_count.new ≡ changed_count.old }
    ensures closed { result ≡ CLOSED ↔ IsClosed past.old }
    ensures range { result ≡ OUT_OF_RANGE → Holds (λ p. first_asked at (from_of from) < p.run.start) past.old }
    ensures later { result ≡ LATER →
        Holds (λ p. (p.run.start ≤ first_asked at (from_of from)) × (p.end < last_asked at (from_of from))) past.old }
    ensures inside { result ≢ CLOSED → result ≢ OUT_OF_RANGE → result ≢ LATER →
        Holds (λ p. IsInside p.run p.end at (from_of from)) past.old }
    ensures far { result ≡ MORE → Holds (λ p. IsFar p (from_of from)) past.old }
    ensures kept { Keeps past.old past.new }
    ensures codes { (result ≤ OUT_OF_MEMORY) ⊎ ((MORE ≤ result) × (result ≤ LATER)) }
{
    let Some(here) = past.take(alloc) else {
        return CLOSED;
    };
    let looked = look_near(alloc, &here, at, from, state, slots, changed, changed_count);
    past.put(here);
    match looked {
        Ok(()) => DONE,
        Err(Unseen::Range) => OUT_OF_RANGE,
        Err(Unseen::Later) => LATER,
        Err(Unseen::More) => MORE,
        Err(Unseen::Room) => NO_ROOM,
        Err(Unseen::Memory) => OUT_OF_MEMORY,
    }
}
