//! Changes of tables of page ids: a checkpoint of version 2 or 3 has them instead of its table.
//!
//! Nothing here allocates memory.

ghost use Rattle.std.specs.Prelude.{◌≡◌, length};
ghost use Rattle.oberon_format.specs.Changes.{changes};

use crate::layout::{CHANGE_LEN, PAGE_ID_AT};
use crate::number::u32_at;
use risc_pages::{PAGE_SLOTS, Table};

/// A page slot and its new page id. Each may be out of its range.
#[derive(Clone, Copy)]
pub(crate) struct Change {
    /// The slot, below 1,024 in a lawful change.
    pub(crate) slot: u32,
    /// The page id in the slot from then on.
    pub(crate) page_id: u32,
}

impl Change {
    ghost use Rattle.std.specs.Prelude.{◌≡◌, ◌≤◌, ◌+◌, length, slice_index};
    ghost use Rattle.oberon_format.specs.Ranges.{is_change};
    ghost use Rattle.oberon_format.specs.ByteFields.{change_at};

    pub(crate) fn of_bytes(bytes: &[u8], offset: usize) -> Change
        requires { offset + CHANGE_LEN ≤ length bytes.now }
        ensures { result ≡ change_at bytes.now offset }
    {
        Change {
            slot: u32_at(bytes, offset),
            page_id: u32_at(bytes, offset + PAGE_ID_AT),
        }
    }

    /// Reports whether the change is lawful after a table: its slot is at least `floor` and one of the table's, and its page id
    /// is at most the number of pages and differs from the one before.
    pub(crate) fn is_lawful(self, pages: u32, floor: u32, before: &Table) -> bool
        ensures { result ≡ is_change pages floor (slice_index before.now.numbers) self }
    {
        floor <= self.slot
            && self.slot < PAGE_SLOTS as u32
            && self.page_id <= pages
            && self.page_id != before.entry(self.slot as u16)
    }
}

#[tactic(auto, using(crate::proofs::Walk::below_none, crate::proofs::Walk::below_few))]
pub(crate) fn change_count(before: &Table, table: &Table) -> u32
    ensures { result ≡ length (changes before.now.numbers table.now.numbers) }
{
    let mut count = 0;
    for p in 0..PAGE_SLOTS {
        if before.entry(p) != table.entry(p) {
            count += 1;
        }
    }
    count
}
