//! A memory without its pool: the private pages alone, which an object can own beside the pool. Memories are in `memory`.

ghost use Rattle.std.specs.Prelude.{◌≡◌, ◌≤◌, IfOk, false, length};
ghost use Rattle.risc_pages.specs.Pages.{page_of};
ghost use Rattle.risc_pages.specs.Tables.{table_words, IsNamed};
ghost use Rattle.risc_pages.specs.inner.Slots.{content, is_owned};
ghost use Rattle.risc_pages.specs.inner.Detached.{detached_base, IsSameSlot};

use crate::memory::Memory;
use crate::page::Page;
use crate::pool::Pool;
use crate::sizes::PAGE_SLOTS;
use crate::slot::{Began, Slot};
use crate::table::Table;
use std::alloc::{AllocError, Global};
use std::marker::Model;
use std::snapshot::Snapshot;

/// A page slot without the pool.
#[derive(Drop)]
pub(crate) enum DetachedSlot {
    /// A page of the pool, which only contracts see.
    Shared(Snapshot<Page>),
    /// A private page of this slot, and, in contracts alone, the page that the slot began with.
    Owned(Box<Page>, Snapshot<Page>),
}

impl DetachedSlot {
    /// Returns the slot that goes on from this one, over the pool's page that it began with.
    fn attach(self, pool: &Pool, page_id: u32) -> Slot<'_>
        requires named { page_id ≤ length pool.now }
        requires base { detached_base self ≡ page_of pool.now page_id }
        ensures same { IsSameSlot result (page_of pool.now page_id) self }
        ensures based { is_owned result ≡ false → content result ≡ page_of pool.now page_id }
    {
        match self {
            DetachedSlot::Shared(_) => pool.slot(page_id),
            DetachedSlot::Owned(own, _) => Slot::Owned(own),
        }
    }
}

/// A memory without its pool: it has the private pages alone, so it borrows nothing.
///
/// In contracts it is the memory that it was made of: its `words`, which of its page slots are `owned`, and its `base`.
#[derive(Drop)]
pub struct DetachedMemory {
    pub(crate) slots: Vec<DetachedSlot>,
}

impl Model for DetachedMemory {
    ghost use Rattle.risc_pages.specs.Contents.{Contents};

    ghost Value = { Contents };

    ghost use Rattle.std.specs.Prelude.{length, ◌≡◌};
    ghost use Rattle.risc_pages.specs.declared.sizes.TheConstants.{PAGE_SLOTS};
    ghost use Rattle.risc_pages.specs.inner.Detached.{detached_contents};

    ghost view = { λ m. detached_contents m.slots.items };

    ghost invariant = { λ m. length m.slots.items ≡ PAGE_SLOTS };
}

impl DetachedMemory {
    /// Returns the memory, over a table of the words that it began with. The pool may have more pages than when the memory was
    /// detached, or be another one.
    ///
    /// It copies no page. The detached memory is consumed, even if memory runs out.
    pub fn attach<'a>(
        self,
        alloc: Global,
        pool: &'a Pool,
        table: &Table,
    ) -> Result<Memory<'a>, AllocError>
        requires named { IsNamed pool.now table.now.numbers }
        requires base { table_words pool.now table.now.numbers ≡ self.base }
        ensures { IfOk result (λ memory. memory ≡ self) }
    {
        let mut slots = Vec::with_capacity(alloc, PAGE_SLOTS as usize)?;
        let mut bases = Vec::with_capacity(alloc, PAGE_SLOTS as usize)?;
        let numbers = table.numbers();
        for slot in self.slots {
            let page_id = numbers[slots.len()];
            let page = pool.page(page_id);
            slots.push_reserved(slot.attach(pool, page_id));
            bases.push_reserved(Began { page });
        }
        Ok(Memory {
            slots,
            bases,
            alloc,
        })
    }
}
