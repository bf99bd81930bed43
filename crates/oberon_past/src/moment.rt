//! The state at a count, for a caller that has the memory of another: the processor, the devices, and the pages that differ.
ghost use Rattle.std.specs.Prelude.{◌≡◌, ◌↔◌, ◌<◌, IfOk, IsTrue};
ghost use Rattle.risc_pages.specs.declared.sizes.TheConstants.{PAGE_SLOTS};
ghost use Rattle.risc_pages.specs.Delta.{IsDelta};
ghost use Rattle.risc_pages.specs.Pages.{page_at};

use risc_devices::Devices;
use risc_model::Cpu;
use risc_pages::{Memory, PAGE_SLOTS, PAGE_WORDS, Page};
use std::alloc::{AllocError, Global};

/// The state at a count. Its memory is that which the caller has, with these pages in their slots.
#[derive(Drop)]
pub struct Moment {
    /// The number of instructions before it.
    pub count: u64,
    pub cpu: Cpu,
    pub devices: Devices,
    /// The pages that differ from the memory that the caller has, in the order of their slots.
    pub changed: Vec<(u16, Page)>,
}

/// Returns the pages in which a memory differs from another one, each with its slot, in the order of the slots.
pub(crate) fn changed_pages(
    alloc: Global,
    base: &Memory<'_>,
    memory: &Memory<'_>,
) -> Result<Vec<(u16, Page)>, AllocError>
    ensures { IfOk result (λ changed. IsDelta base.now.words memory.now.words changed.items) }
{
    let mut changed = Vec::new(alloc);
    for slot in 0..PAGE_SLOTS {
        let page = page_at(memory, slot);
        let earlier = page_at(base, slot);
        if !are_same(&page, &earlier) {
            changed.push((slot, page))?;
        }
    }
    Ok(changed)
}

/// Returns the page of a memory that is in a slot.
fn page_at(memory: &Memory<'_>, slot: u16) -> Page
    requires { slot < PAGE_SLOTS }
    ensures { result.words ≡ page_at memory.now.words slot }
{
    // The contract of `owned` states that a memory has all its words.
    let _owned = memory.owned(slot);
    let mut words = [0; PAGE_WORDS as usize];
    for i in 0..PAGE_WORDS {
        words[i as usize] = memory.read(slot as u32 * PAGE_WORDS + i);
    }
    Page { words }
}

fn are_same(one: &Page, other: &Page) -> bool
    ensures { IsTrue result ↔ (one.now.words ≡ other.now.words) }
{
    one.words == other.words
}
