//! The state at a count of a past, in the memory of a caller: the state, and the pages that differ from those that the caller has.
ghost use Rattle.std.specs.Prelude.{◌≡◌, ◌≤◌, ◌<◌, ℕ, IfErr, OnErr, OnOk, drop, length, map, take};
ghost use Rattle.risc_core.specs.declared.branch.TheConstants.{COUNTER_END};
ghost use Rattle.risc_pages.specs.declared.page.Page.{Page};
ghost use Rattle.galluspa.specs.Past.{from_of};
ghost use Rattle.galluspa.specs.inner.Moments.{IsWrittenState, raw_page};

use crate::claims::RawPage;
use crate::raw::{RawState, state_of};
use oberon_past::Moment;
use risc_pages::Page;
use std::alloc::{AllocError, Global};

/// The count `from` of a caller that has the memory of none.
pub const NO_COUNT: u64 = u64::MAX;

/// Why a caller gets no state of a past.
#[derive(Clone, Copy)]
pub(crate) enum Unseen {
    /// The budget is 0, or a count is before the first.
    Range,
    /// A count is after the end.
    Later,
    /// The past has to run further first.
    More,
    /// More pages differ than there is room for.
    Room,
    /// An allocation failed.
    Memory,
}

impl From<AllocError> for Unseen {
    ghost use Rattle.std.specs.Prelude.{◌≡◌};
    ghost use Rattle.galluspa.specs.declared.moments.Unseen.{Unseen};

    ghost from_gives = { λ _ refusal. refusal ≡ Unseen.Memory };

    fn from(_failure: AllocError) -> Unseen {
        Unseen::Memory
    }
}

/// Returns the count whose memory a caller has, if there is one.
pub(crate) fn from_of(from: u64) -> Option<u64>
    ensures { result ≡ from_of from }
{
    if from == NO_COUNT {
        return None;
    }
    Some(from)
}

/// Writes pages and their slots to the front of two lists.
fn write_changed(changed: &[(u16, Page)], slots: &mut [u16; 1024], pages: &mut [RawPage])
    requires few { length changed.now ≤ 1024 }
    requires room { length changed.now ≤ length pages.old }
    ensures slots { take (length changed.now) slots.new ≡ map (λ (c : ℕ × Page). c.0) changed.now }
    ensures pages { take (length changed.now) pages.new ≡ map raw_page changed.now }
    ensures slots_rest { drop (length changed.now) slots.new ≡ drop (length changed.now) slots.old }
    ensures rest { drop (length changed.now) pages.new ≡ drop (length changed.now) pages.old }
{
    for index in 0..changed.len() {
        let (slot, page) = &changed[index];
        slots[index] = *slot;
        pages[index] = RawPage { words: page.words };
    }
}

/// Writes the state of a moment, and its pages if there is room for all of them.
pub(crate) fn write_moment(
    moment: &Moment,
    state: &mut RawState,
    slots: &mut [u16; 1024],
    changed: &mut [RawPage],
    changed_count: &mut usize,
) -> Result<(), Unseen>
    requires counter { moment.now.cpu.pc < COUNTER_END }
    requires stop { moment.now.cpu.stop ≤ 4 }
    requires few { length moment.now.changed.items ≤ 1024 }
    ensures count { changed_count.new ≡ length moment.now.changed.items }
    ensures state { OnOk result (IsWrittenState moment.now state.new) }
    ensures slots { OnOk result (take changed_count.new slots.new ≡ map (λ (c : ℕ × Page). c.0) moment.now.changed.items) }
    ensures pages { OnOk result (take changed_count.new changed.new ≡ map raw_page moment.now.changed.items) }
    ensures slots_rest { OnOk result (drop changed_count.new slots.new ≡ drop changed_count.new slots.old) }
    ensures rest { OnOk result (drop changed_count.new changed.new ≡ drop changed_count.new changed.old) }
    ensures room { OnOk result (changed_count.new ≤ length changed.old) }
    ensures no_room { OnErr result (length changed.old < changed_count.new) }
    ensures refusal { IfErr result (λ refusal. refusal ≡ Unseen.Room) }
    ensures unchanged { OnErr result ((state.new ≡ state.old) × (slots.new ≡ slots.old) × (changed.new ≡ changed.old)) }
{
    *changed_count = moment.changed.len();
    if *changed_count > changed.len() {
        return Err(Unseen::Room);
    }
    *state = state_of(moment.count, &moment.cpu, &moment.devices);
    write_changed(&moment.changed, slots, changed);
    Ok(())
}
