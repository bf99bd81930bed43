//! Memory: a map from word number to word, in copy-on-write pages of a pool; and its changes.
ghost use Rattle.std.specs.Prelude.{◌≡◌, ◌+◌, ◌/◌, ◌<◌, ◌≤◌, ℕ, All, OnOk, OnErr, IfOk, IfNone, IfSome, IsOk};
ghost use Rattle.std.specs.Prelude.{Some, true, false, slice_get, slice_index, slice_range, slice_set};
ghost use Rattle.risc_pages.specs.declared.sizes.TheConstants.{MEMORY_WORDS};
ghost use Rattle.risc_pages.specs.Tables.{table_words, IsContent, IsNamed};
ghost use Rattle.risc_pages.specs.Contents.{IsMemory};
ghost use Rattle.risc_pages.specs.Delta.{changed_slots, AreDifferences, IsDelta, IsFirstDifferentPage};

use crate::detached::DetachedMemory;
use crate::page::Page;
use crate::pool::Pool;
use crate::sizes::{PAGE_SLOTS, PAGE_WORDS};
use crate::slot::{Began, Slot, copy_on_write};
use crate::table::Table;
use std::alloc::{AllocError, Global};
use std::marker::Model;

/// The page slots whose content differs from the table that a memory was made from, in rising order, each with the page that the
/// memory has there.
#[derive(Drop)]
pub struct Delta {
    pub changed: Vec<(u16, Page)>,
}

/// A memory of 262,144 words.
///
/// In contracts a memory is its `words`, in order; which of its page slots are `owned`; and its `base`, the words that it was
/// made with. It borrows its pool, which it never changes.
#[derive(Drop)]
pub struct Memory<'a> {
    pub(crate) slots: Vec<Slot<'a>>,
    /// The pages that the slots began with.
    pub(crate) bases: Vec<Began<'a>>,
    pub(crate) alloc: Global,
}

impl<'a> Model for Memory<'a> {
    ghost use Rattle.risc_pages.specs.Contents.{Contents};

    ghost Value = { Contents };

    ghost use Rattle.risc_pages.specs.inner.Slots.{contents_of, AreBased};

    ghost view = { λ m. contents_of m.slots.items m.bases.items };

    ghost invariant = { λ m. AreBased m.slots.items m.bases.items };
}

impl<'a> Memory<'a> {
    /// Makes the memory of a table. It shares all its pages with the pool; no page is copied.
    pub fn from_table(alloc: Global, pool: &'a Pool, table: &Table) -> Result<Self, AllocError>
        requires { IsNamed pool.now table.now.numbers }
        ensures content { IfOk result (λ memory. IsContent memory.words pool.now table.now.numbers) }
        ensures words { IfOk result (λ memory. memory.words ≡ table_words pool.now table.now.numbers) }
        ensures base { IfOk result (λ memory. memory.base ≡ table_words pool.now table.now.numbers) }
        ensures shared { IfOk result (λ memory. All (λ owned. owned ≡ false) memory.owned) }
        ensures memory { IfOk result IsMemory }
    {
        let mut slots = Vec::with_capacity(alloc, PAGE_SLOTS as usize)?;
        let mut bases = Vec::with_capacity(alloc, PAGE_SLOTS as usize)?;
        let numbers = table.numbers();
        for number in numbers {
            slots.push_reserved(pool.slot(*number));
            let page = pool.page(*number);
            bases.push_reserved(Began { page });
        }
        Ok(Memory {
            slots,
            bases,
            alloc,
        })
    }

    /// Returns the word with this number.
    #[inline(always)]
    pub fn read(&self, number: u32) -> u32
        requires { number < MEMORY_WORDS }
        ensures word { result ≡ slice_index self.now.words number }
        ensures memory { IsMemory self.now }
    {
        let slot = (number / PAGE_WORDS) as usize;
        let index = (number % PAGE_WORDS) as usize;
        self.slots[slot].page().words[index]
    }

    /// Changes one word.
    ///
    /// The first write to a page that is not owned makes a copy of it, which is owned from then on. If there is no memory for the
    /// copy, the write fails and the memory is unchanged. A write to an owned page allocates nothing.
    #[inline(always)]
    pub fn write(&mut self, number: u32, value: u32) -> Result<(), AllocError>
        requires { number < MEMORY_WORDS }
        ensures ok { OnOk result (self.new.words ≡ slice_set self.old.words number value) }
        ensures owned { OnOk result (self.new.owned ≡ slice_set self.old.owned (number / PAGE_WORDS) true) }
        ensures base { self.new.base ≡ self.old.base }
        ensures err { OnErr result (self.new ≡ self.old) }
        ensures out_of_memory { OnErr result (slice_get self.old.owned (number / PAGE_WORDS) ≡ Some false) }
        ensures succeeds { slice_get self.old.owned (number / PAGE_WORDS) ≡ Some true → IsOk result }
    {
        let slot = (number / PAGE_WORDS) as usize;
        let index = (number % PAGE_WORDS) as usize;
        match &mut self.slots[slot] {
            Slot::Owned(own) => {
                own.words[index] = value;
                Ok(())
            }
            Slot::Blank(blank) => {
                let base = &blank.page;
                copy_on_write(self.alloc, &mut self.slots, slot, base, index, value)?;
                Ok(())
            }
            Slot::Shared(page) => {
                let base = *page;
                copy_on_write(self.alloc, &mut self.slots, slot, base, index, value)?;
                Ok(())
            }
        }
    }

    /// Writes one word if its page is private. Returns whether it is; if not, the memory is unchanged. It allocates nothing.
    #[inline(always)]
    pub fn write_owned(&mut self, number: u32, word: u32) -> bool
        requires { number < MEMORY_WORDS }
        ensures words { result ≡ true → self.new.words ≡ slice_set self.old.words number word }
        ensures owned { result ≡ true → self.new.owned ≡ slice_set self.old.owned (number / PAGE_WORDS) true }
        ensures base { self.new.base ≡ self.old.base }
        ensures unchanged { result ≡ false → self.new ≡ self.old }
        ensures answer { slice_get self.old.owned (number / PAGE_WORDS) ≡ Some result }
    {
        let slot = (number / PAGE_WORDS) as usize;
        let index = (number % PAGE_WORDS) as usize;
        match &mut self.slots[slot] {
            Slot::Owned(own) => {
                own.words[index] = word;
                true
            }
            Slot::Blank(_) => false,
            Slot::Shared(_) => false,
        }
    }

    /// Reports whether a page slot has a private page.
    pub fn owned(&self, slot: u16) -> bool
        requires { slot < PAGE_SLOTS }
        ensures owned { slice_get self.now.owned slot ≡ Some result }
        ensures memory { IsMemory self.now }
    {
        match &self.slots[slot as usize] {
            Slot::Owned(_) => true,
            _ => false,
        }
    }

    /// Returns the `n` words from word number `from` on.
    pub fn words(&self, alloc: Global, from: u32, n: u32) -> Result<Vec<u32>, AllocError>
        requires { from + n ≤ MEMORY_WORDS }
        ensures { IfOk result (λ words. words.items ≡ slice_range self.now.words from (from + n)) }
    {
        let mut words = Vec::with_capacity(alloc, n as usize)?;
        for number in from..from + n {
            words.push(self.read(number))?;
        }
        Ok(words)
    }

    /// Returns the least page slot whose content differs from that of the table over the pool.
    ///
    /// The pool need not be the one that this memory borrows. Contents are compared, not page ids. Allocates nothing.
    pub fn first_difference(&self, pool: &Pool, table: &Table) -> Option<u16>
        requires { IsNamed pool.now table.now.numbers }
        ensures none { IfNone result (self.now.words ≡ table_words pool.now table.now.numbers) }
        ensures some { IfSome result (IsFirstDifferentPage self.now.words (table_words pool.now table.now.numbers)) }
    {
        let slot = self.least_other(pool, table);
        if slot < PAGE_SLOTS { Some(slot) } else { None }
    }

    /// Returns the least page slot whose content differs from that of the table over the pool, or [`PAGE_SLOTS`] if there is none.
    ///
    /// The loop is in a function of its own, so that each iteration is a few machine instructions.
    #[inline(never)]
    fn least_other(&self, pool: &Pool, table: &Table) -> u16
        requires { IsNamed pool.now table.now.numbers }
        ensures none { PAGE_SLOTS ≤ result → self.now.words ≡ table_words pool.now table.now.numbers }
        ensures some { result < PAGE_SLOTS → IsFirstDifferentPage self.now.words (table_words pool.now table.now.numbers) result }
    {
        let numbers = table.numbers();
        let mut slot = 0;
        while slot < PAGE_SLOTS {
            if !self.slots[slot as usize].is_same(pool, numbers[slot as usize]) {
                return slot;
            }
            slot += 1;
        }
        slot
    }

    /// Returns the page slots whose content differs from the table that the memory was made from, with their pages.
    fn changes(&self) -> Result<Vec<(u16, Page)>, AllocError>
        ensures delta { IfOk result (λ changed. IsDelta self.now.base self.now.words changed.items) }
        ensures differences { IfOk result (λ changed. AreDifferences self.now.base self.now.words (changed_slots changed.items)) }
    {
        let mut changed = Vec::new(self.alloc);
        for slot in 0..PAGE_SLOTS {
            let base = self.bases[slot as usize].page;
            if let Some(page) = self.slots[slot as usize].change(base) {
                changed.push((slot, *page))?;
            }
        }
        Ok(changed)
    }

    /// Returns the page slots whose content differs from the table that the memory was made from, with their pages.
    pub fn delta(&self) -> Result<Delta, AllocError>
        ensures delta { IfOk result (λ delta. IsDelta self.now.base self.now.words delta.changed.items) }
        ensures differences { IfOk result (λ d. AreDifferences self.now.base self.now.words (changed_slots d.changed.items)) }
    {
        Ok(Delta {
            changed: self.changes()?,
        })
    }

    /// Returns the memory without its pool. It copies no page. Consumes the memory, also if memory runs out.
    pub fn detach(self) -> Result<DetachedMemory, AllocError>
        ensures { IfOk result (λ detached. detached ≡ self.entry) }
    {
        let Memory {
            slots,
            bases,
            alloc,
        } = self;
        let mut detached = Vec::with_capacity(alloc, PAGE_SLOTS as usize)?;
        for slot in slots {
            let base = bases[detached.len()].page;
            detached.push_reserved(slot.detach(base));
        }
        Ok(DetachedMemory { slots: detached })
    }

    /// Returns the page slots whose content differs from the table that the memory was made from, with their pages. Consumes the
    /// memory, also if there is no memory for the answer.
    pub fn close(self) -> Result<Delta, AllocError>
        ensures delta { IfOk result (λ delta. IsDelta self.entry.base self.entry.words delta.changed.items) }
        ensures differences { IfOk result (λ d. AreDifferences self.entry.base self.entry.words (changed_slots d.changed.items)) }
    {
        let changed = self.changes()?;
        Ok(Delta { changed })
    }
}
