//! The pool: the pages that memories share. A table says which page is in which slot.

ghost use Rattle.std.specs.Prelude.{◌≡◌, ◌++◌, ◌∷◌, [], ◌<◌, ◌≤◌, ◌^◌, ◌↔◌, ℕ, false};
ghost use Rattle.std.specs.Prelude.{IsTrue, length, slice_index, OnOk, OnErr, IfOk};
ghost use Rattle.risc_pages.specs.declared.sizes.TheConstants.{PAGE_WORDS};
ghost use Rattle.risc_pages.specs.Pages.{page_of, ArePages};
ghost use Rattle.risc_pages.specs.inner.Slots.{content, is_owned};

use crate::page::{Blank, Page};
use crate::slot::Slot;
use std::alloc::{AllocError, Global};
use std::marker::Model;

/// The pages that memories share. Page id 0 is the page of zeros, and page id i + 1 is the pool's page i.
///
/// In contracts a pool is the list of its pages, each the list of its words.
#[derive(Drop)]
pub struct Pool {
    zeros: Blank,
    pages: Vec<Page>,
}

impl Model for Pool {
    ghost use Rattle.std.specs.Prelude.{List, ℕ};

    ghost Value = { List (List ℕ) };

    ghost use Rattle.std.specs.Prelude.{map, vec_len, ◌≤◌, ◌^◌};
    ghost use Rattle.risc_pages.specs.inner.Slots.{words_of};

    ghost view = { λ p. map words_of p.pages.items };

    ghost invariant = { λ p. vec_len p.pages ≤ 2 ^ 31 };
}

impl Pool {
    /// Returns the pool with no pages. Allocates nothing.
    pub fn new(alloc: Global) -> Self
        ensures { result ≡ [] }
    {
        Pool {
            zeros: Blank::new(),
            pages: Vec::new(alloc),
        }
    }

    /// Returns a pool with no pages and capacity for `pages` pages. Fails if there is no memory for them.
    pub fn with_capacity(alloc: Global, pages: u32) -> Result<Self, AllocError>
        ensures { IfOk result (λ pool. pool ≡ []) }
    {
        Ok(Pool {
            zeros: Blank::new(),
            pages: Vec::with_capacity(alloc, pages as usize)?,
        })
    }

    /// Returns the number of pages, which is also the largest page id.
    #[inline]
    pub fn len(&self) -> u32
        ensures count { result ≡ length self.now }
        ensures bounded { length self.now ≤ 2 ^ 31 }
        ensures pages { ArePages self.now }
    {
        self.pages.len() as u32
    }

    /// Reports whether the pool has only the zero page.
    #[inline]
    pub fn is_empty(&self) -> bool
        ensures { IsTrue result ↔ (length self.now ≡ 0) }
    {
        self.pages.is_empty()
    }

    /// Appends a page. If there is no memory for it, the pool is unchanged.
    pub fn push(&mut self, page: Page) -> Result<(), AllocError>
        requires { length self.old < 2 ^ 31 }
        ensures ok { OnOk result (self.new ≡ self.old ++ page.words ∷ []) }
        ensures err { OnErr result (self.new ≡ self.old) }
    {
        self.pages.push(page)?;
        Ok(())
    }

    /// Returns word `i` of the page with this id.
    #[inline]
    pub fn word(&self, page_id: u32, i: u32) -> u32
        requires named { page_id ≤ length self.now }
        requires inside { i < PAGE_WORDS }
        ensures { result ≡ slice_index (page_of self.now page_id) i }
    {
        self.page(page_id).words[i as usize]
    }

    /// Returns the page with this id.
    #[inline]
    pub fn page(&self, page_id: u32) -> &Page
        requires { page_id ≤ length self.now }
        ensures words { result.now.words ≡ page_of self.now page_id }
        ensures pages { ArePages self.now }
    {
        if page_id == 0 {
            &self.zeros.page
        } else {
            &self.pages[(page_id - 1) as usize]
        }
    }

    /// Returns a slot that shares the page with this id.
    #[inline]
    pub(crate) fn slot(&self, page_id: u32) -> Slot<'_>
        requires { page_id ≤ length self.now }
        ensures words { content result ≡ page_of self.now page_id }
        ensures shared { is_owned result ≡ false }
    {
        if page_id == 0 {
            Slot::Blank(&self.zeros)
        } else {
            Slot::Shared(self.page(page_id))
        }
    }
}
