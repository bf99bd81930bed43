//! The pages of a session, each with its slot, decoded from hexadecimal digits.
ghost use Rattle.std.specs.Prelude.{◌≡◌, ◌≢◌, ◌↔◌, ◌<◌, ◌^◌, map, slice_index};
ghost use Rattle.std.specs.List.{All};
ghost use Rattle.oberon_session.specs.inner.Drafts.{GivesOr, page_view};
ghost use Rattle.oberon_session.specs.Parts.{placed_view};
ghost use Rattle.oberon_session.specs.inner.Tested.{PageFits};
ghost use Rattle.oberon_session.specs.Digits.{all_placed_of, placed_of, word_of_bytes, words_of_bytes};

use crate::SessionFault;
use crate::draft::PageDraft;
use hex::FromHexError;
use risc_pages::{PAGE_WORDS, Page};
use std::alloc::Global;

/// A page of a session, and its page slot `at`, from 0 to 1,023.
#[derive(Clone, Copy)]
pub struct PlacedPage {
    pub at: u16,
    pub page: Page,
}

/// Decodes the pages of a session. Returns `Hex` if the digits of a page are not pairs of hexadecimal digits.
pub fn placed_pages(
    alloc: Global,
    drafts: &[PageDraft<'_>],
) -> Result<Vec<PlacedPage>, SessionFault>
    requires { All PageFits (map page_view drafts.now) }
    ensures { GivesOr SessionFault.Hex (λ found. map placed_view found.items) (all_placed_of (map page_view drafts.now)) result }
{
    let mut pages = Vec::new(alloc);
    for draft in drafts {
        pages.push(placed_page(alloc, draft)?)?;
    }
    Ok(pages)
}

fn placed_page(alloc: Global, draft: &PageDraft<'_>) -> Result<PlacedPage, SessionFault>
    requires { PageFits (page_view draft.now) }
    ensures { GivesOr SessionFault.Hex placed_view (placed_of (page_view draft.now)) result }
{
    match hex::decode(alloc, draft.hex) {
        Ok(bytes) => Ok(PlacedPage {
            at: draft.at as u16,
            page: page_of(&bytes),
        }),
        Err(refused) => Err(hex_fault(&refused)),
    }
}

/// Returns the fault for an error of `hex`. The rules do not distinguish an odd number of digits from a wrong digit.
fn hex_fault(refused: &FromHexError) -> SessionFault
    ensures memory { (result ≡ SessionFault.Memory) ↔ (refused.now ≡ FromHexError.OutOfMemory) }
    ensures hex { (result ≡ SessionFault.Hex) ↔ (refused.now ≢ FromHexError.OutOfMemory) }
{
    match refused {
        FromHexError::OutOfMemory => SessionFault::Memory,
        _ => SessionFault::Hex,
    }
}

/// Returns the page that these bytes begin; the rest of it is zeros.
fn page_of(bytes: &[u8]) -> Page
    ensures { result.words ≡ words_of_bytes bytes.now }
{
    let mut words = [0; PAGE_WORDS as usize];
    for i in 0..PAGE_WORDS as usize {
        words[i] = word(bytes, i);
    }
    Page { words }
}

/// Returns word `i` of the page: four bytes, the lowest first.
fn word(bytes: &[u8], i: usize) -> u32
    requires { i < PAGE_WORDS }
    ensures { result ≡ word_of_bytes bytes.now i }
{
    let low = byte(bytes, 4 * i) + (byte(bytes, 4 * i + 1) << 8);
    let high = byte(bytes, 4 * i + 2) + (byte(bytes, 4 * i + 3) << 8);
    low + (high << 16)
}

/// Returns a byte of the page. A byte after the last digit is 0.
fn byte(bytes: &[u8], index: usize) -> u32
    ensures value { result ≡ slice_index bytes.now index }
    ensures range { result < 2 ^ 8 }
{
    bytes.get(index).copied().map_or(0, u32::from)
}
