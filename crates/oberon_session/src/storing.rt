//! Memories stored as pages in a pool, and the table that names them. Keyframes of a run are stored by the same functions.

ghost use Rattle.std.specs.Prelude.{◌≡◌, ◌≢◌, ◌+◌, ◌<◌, ◌≤◌, ◌^◌, All, IfOk, OnOk, ℕ, length, map, slice_index};
ghost use Rattle.risc_pages.specs.declared.page.Page.{Page};
ghost use Rattle.risc_pages.specs.declared.sizes.TheConstants.{PAGE_SLOTS};
ghost use Rattle.oberon_session.specs.Parts.{placed_view};
ghost use Rattle.risc_pages.specs.Tables.{IsNamed, table_words};
ghost use Rattle.oberon_session.specs.Stored.{IsGrown, changed_page_view, changed_pages, is_blank, store, store_page, store_pages, stored_view};
ghost use Rattle.oberon_session.specs.Recorded.{first_stored};

use crate::digits::PlacedPage;
use oberon_format::MAX_PAGES;
use risc_pages::{MEMORY_WORDS, Memory, Page, Pool, Table};
use std::alloc::{AllocError, Global};

/// The pages that were stored so far, and the table of the memory that was stored last.
#[derive(Drop)]
pub struct StoredPages {
    pub pool: Pool,
    pub table: Table,
}

/// Stores the pages of a session's initial memory in their order, each named in its slot.
pub fn store_first(alloc: Global, pages: &[PlacedPage]) -> Result<StoredPages, AllocError>
    requires few { length pages.now ≤ PAGE_SLOTS }
    requires slots { All (λ page. page.at < PAGE_SLOTS) pages.now }
    ensures { IfOk result (λ stored. stored_view stored ≡ first_stored (map placed_view pages.now)) }
{
    let mut pool = Pool::new(alloc);
    let mut table = Table::zeros();
    for page in pages {
        pool.push(page.page)?;
        table.set(page.at, pool.len());
    }
    Ok(StoredPages { pool, table })
}

/// Stores pages one after another, each in its slot. If memory runs out, some of them are in the pool.
pub fn store_pages(stored: &mut StoredPages, changed: &[(u16, Page)]) -> Result<(), AllocError>
    requires few { length changed.now ≤ PAGE_SLOTS }
    requires room { length stored.old.pool + PAGE_SLOTS ≤ 2 ^ 31 }
    requires slots { All (λ (c : ℕ × Page). c.0 < PAGE_SLOTS) changed.now }
    ensures stored { OnOk result (stored_view stored.new
        ≡ store_pages (stored_view stored.old) (map changed_page_view changed.now)) }
    ensures grown { OnOk result (length stored.new.pool ≤ length stored.old.pool + length changed.now) }
    ensures kept { IsGrown stored.old.pool stored.new.pool }
{
    for (slot, page) in changed {
        store_page(stored, *slot, page)?;
    }
    Ok(())
}

/// Stores a page in a slot: a page of zeros has the page id 0, and any other is added at the end of the pool.
#[tactic(auto, unfolding(crate::specs::Stored::store_page))]
fn store_page(stored: &mut StoredPages, slot: u16, page: &Page) -> Result<(), AllocError>
    requires slot { slot < PAGE_SLOTS }
    requires room { length stored.old.pool < 2 ^ 31 }
    ensures stored { OnOk result (stored_view stored.new ≡ store_page (stored_view stored.old) (slot, page.now.words)) }
    ensures grown { OnOk result (length stored.new.pool ≤ length stored.old.pool + 1) }
    ensures kept { IsGrown stored.old.pool stored.new.pool }
{
    if is_blank(page) {
        stored.table.set(slot, 0);
        return Ok(());
    }
    stored.pool.push(*page)?;
    stored.table.set(slot, stored.pool.len());
    Ok(())
}

#[tactic(auto, unfolding(crate::specs::Stored::is_blank))]
fn is_blank(page: &Page) -> bool
    ensures { result ≡ is_blank page.now.words }
{
    page.words.iter().all(|word| *word == 0)
}

/// Stores a memory of these words after the memory of the last table: only the pages that differ.
#[tactic(auto, unfolding(crate::specs::Stored::store))]
pub fn store_words(alloc: Global, stored: &mut StoredPages, words: &[u32]) -> Result<(), AllocError>
    requires whole { length words.now ≡ MEMORY_WORDS }
    requires named { IsNamed stored.old.pool stored.old.table.numbers }
    requires room { length stored.old.pool ≤ MAX_PAGES }
    ensures stored { OnOk result (stored_view stored.new
        ≡ store (table_words stored.old.pool stored.old.table.numbers) words.now (stored_view stored.old)) }
    ensures grown { OnOk result (length stored.new.pool ≤ length stored.old.pool + PAGE_SLOTS) }
{
    let changed = changed_pages(alloc, &stored.pool, &stored.table, words)?;
    store_pages(stored, &changed)
}

/// Returns the pages of words that differ from the content of a table, each with its slot.
fn changed_pages(
    alloc: Global,
    pool: &Pool,
    table: &Table,
    words: &[u32],
) -> Result<Vec<(u16, Page)>, AllocError>
    requires whole { length words.now ≡ MEMORY_WORDS }
    requires named { IsNamed pool.now table.now.numbers }
    ensures { IfOk result (λ changed. map changed_page_view changed.items
        ≡ changed_pages (table_words pool.now table.now.numbers) words.now) }
{
    let mut memory = Memory::from_table(alloc, pool, table)?;
    write_words(&mut memory, words)?;
    let delta = memory.close()?;
    Ok(delta.changed)
}

/// Writes these words to a memory. A page that has its words already stays shared.
fn write_words(memory: &mut Memory<'_>, words: &[u32]) -> Result<(), AllocError>
    requires { length words.now ≡ MEMORY_WORDS }
    ensures words { OnOk result (memory.new.words ≡ words.now) }
    ensures base { memory.new.base ≡ memory.old.base }
{
    // The contract of `read` states that a memory has all its words.
    let _first = memory.read(0);
    for number in 0..MEMORY_WORDS {
        write_word(memory, number, words[number as usize])?;
    }
    Ok(())
}

/// Writes a word to a memory, if the memory has another word there. Otherwise the memory stays as it is, and no page becomes
/// private.
fn write_word(memory: &mut Memory<'_>, number: u32, word: u32) -> Result<(), AllocError>
    requires inside { number < MEMORY_WORDS }
    requires whole { length memory.old.words ≡ MEMORY_WORDS }
    ensures here { OnOk result (slice_index memory.new.words number ≡ word) }
    ensures others { OnOk result ((k : ℕ) → k ≢ number → slice_index memory.new.words k ≡ slice_index memory.old.words k) }
    ensures whole { OnOk result (length memory.new.words ≡ MEMORY_WORDS) }
    ensures base { memory.new.base ≡ memory.old.base }
    ensures same { slice_index memory.old.words number ≡ word → memory.new ≡ memory.old }
{
    if memory.read(number) == word {
        return Ok(());
    }
    memory.write(number, word)
}
