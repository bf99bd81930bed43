//! A page slot of a memory: a shared page of the pool, or a private page. No contract that callers of this crate see mentions it.

ghost use Rattle.std.specs.Prelude.{◌≡◌, ◌≢◌, ◌↔◌, ◌<◌, ◌≤◌, ℕ, length, slice_set};
ghost use Rattle.std.specs.Prelude.{IsTrue, IfNone, IfSome, OnOk, OnErr, true, false};
ghost use Rattle.risc_pages.specs.declared.sizes.TheConstants.{PAGE_WORDS};
ghost use Rattle.risc_pages.specs.Pages.{page_of, ArePages};
ghost use Rattle.risc_pages.specs.inner.Slots.{content, is_owned, TakesCopy};
ghost use Rattle.risc_pages.specs.inner.Detached.{IsSameSlot};

use crate::detached::DetachedSlot;
use crate::page::{Blank, Page};
use crate::pool::Pool;
use std::alloc::{AllocError, Global};
use std::snapshot::Snapshot;

/// The page in a slot of a memory.
#[derive(Drop)]
pub(crate) enum Slot<'a> {
    /// The pool's page of zeros, not yet written here.
    Blank(&'a Blank),
    /// Another page of the pool, not yet written here.
    Shared(&'a Page),
    /// A private page of this slot.
    Owned(Box<Page>),
}

/// The page that a slot began with.
#[derive(Drop)]
pub(crate) struct Began<'a> {
    pub(crate) page: &'a Page,
}

impl<'a> Slot<'a> {
    #[inline(always)]
    pub(crate) fn page(&self) -> &Page
        ensures { result.now.words ≡ content self.now }
    {
        match self {
            Slot::Blank(blank) => &blank.page,
            Slot::Shared(page) => page,
            Slot::Owned(own) => own,
        }
    }

    /// Reports whether the page in this slot has the words of the pool's page with this id.
    pub(crate) fn is_same(&self, pool: &Pool, page_id: u32) -> bool
        requires { page_id ≤ length pool.now }
        ensures same { IsTrue result ↔ (content self.now ≡ page_of pool.now page_id) }
        ensures pages { ArePages pool.now }
    {
        let theirs = pool.page(page_id);
        match self {
            Slot::Blank(_) if page_id == 0 => true,
            _ => self.has_words_of(theirs),
        }
    }

    #[cold]
    #[inline(never)]
    fn has_words_of(&self, page: &Page) -> bool
        ensures { IsTrue result ↔ (content self.now ≡ page.now.words) }
    {
        self.page().words == page.words
    }

    /// Returns the page in this slot, if its words differ from those of the page that the slot began with.
    pub(crate) fn change(&self, base: &Page) -> Option<&Page>
        requires { is_owned self.now ≡ false → content self.now ≡ base.now.words }
        ensures none { IfNone result (content self.now ≡ base.now.words) }
        ensures some { IfSome result (λ page. (page.now.words ≡ content self.now) × (content self.now ≢ base.now.words)) }
    {
        match self {
            Slot::Owned(own) if own.words != base.words => Some(own),
            _ => None,
        }
    }

    /// Returns the slot without the pool, which began with this page.
    pub(crate) fn detach(self, base: &Page) -> DetachedSlot
        requires { is_owned self ≡ false → content self ≡ base.now.words }
        ensures { IsSameSlot self.entry base.now.words result }
    {
        match self {
            Slot::Blank(blank) => DetachedSlot::Shared(Snapshot::of(&blank.page)),
            Slot::Shared(page) => DetachedSlot::Shared(Snapshot::of(page)),
            Slot::Owned(own) => DetachedSlot::Owned(own, Snapshot::of(base)),
        }
    }
}

/// Gives a slot a copy of this page, with one word changed. If there is no memory for the copy, nothing changes.
#[cold]
#[inline(never)]
pub(crate) fn copy_on_write<'a>(
    alloc: Global,
    slots: &mut Vec<Slot<'a>>,
    slot: usize,
    base: &Page,
    index: usize,
    word: u32,
) -> Result<(), AllocError>
    requires slot_inside { slot < length slots.old.items }
    requires index_inside { index < PAGE_WORDS }
    ensures ok { OnOk result (TakesCopy slots.old.items slots.new.items slot (slice_set base.now.words index word)) }
    ensures err { OnErr result (slots.new ≡ slots.old) }
{
    let mut page = *base;
    page.words[index] = word;
    let own = Box::new(alloc, page)?;
    put(slots, slot, own);
    Ok(())
}

/// Puts a private page into a slot.
fn put<'a>(slots: &mut Vec<Slot<'a>>, slot: usize, own: Box<Page>)
    requires { slot < length slots.old.items }
    ensures { slots.new.items ≡ slice_set slots.old.items slot (Slot.Owned own) }
{
    slots[slot] = Slot::Owned(own);
}
