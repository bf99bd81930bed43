//! A page, and the page of zeros. Pools and memories are in modules of their own.

ghost use Rattle.std.specs.Prelude.{◌≡◌, ◌<◌, ◌^◌, ℕ, All, length};
ghost use Rattle.risc_pages.specs.declared.sizes.TheConstants.{PAGE_WORDS};
ghost use Rattle.risc_pages.specs.Pages.{zero_page};

use crate::sizes::PAGE_WORDS;

/// A page of memory: 256 words.
#[derive(Clone, Copy)]
pub struct Page {
    pub words: [u32; PAGE_WORDS as usize],
    pub ghost whole: { length words ≡ PAGE_WORDS },
    pub ghost fit: { All (λ word. word < 2 ^ 32) words },
}

/// The page of zeros, which each pool has with the id 0. A page slot that shares it is known to be all zeros by its variant
/// alone.
#[derive(Clone, Copy)]
pub(crate) struct Blank {
    pub(crate) page: Page,
    pub ghost blank: { page.words ≡ zero_page },
}

impl Blank {
    /// Returns the page of zeros.
    pub(crate) fn new() -> Self {
        let page = Page {
            words: [0; PAGE_WORDS as usize],
        };
        Blank { page }
    }
}
