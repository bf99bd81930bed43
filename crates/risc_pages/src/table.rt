//! The table of a memory: the page id of each slot. The pages are in a pool.

ghost use Rattle.std.specs.Prelude.{◌≡◌, ◌<◌, ◌^◌, ℕ, All, length, slice_index, slice_set};
ghost use Rattle.risc_pages.specs.declared.sizes.TheConstants.{PAGE_SLOTS};
ghost use Rattle.risc_pages.specs.Tables.{zero_numbers};

use crate::sizes::PAGE_SLOTS;

/// The page ids of the 1,024 slots of a memory.
#[derive(Drop)]
pub struct Table {
    pub numbers: [u32; PAGE_SLOTS as usize],
    pub ghost count: { length numbers ≡ PAGE_SLOTS },
    pub ghost fit: { All (λ n. n < 2 ^ 32) numbers },
}

impl Table {
    /// Returns the table that names the page of zeros in each slot.
    pub fn zeros() -> Self
        ensures { result.numbers ≡ zero_numbers }
    {
        Table {
            numbers: [0; PAGE_SLOTS as usize],
        }
    }

    /// Returns a table with the same page ids.
    pub fn copy(&self) -> Self
        ensures { result ≡ self.now }
    {
        Table {
            numbers: self.numbers,
        }
    }

    /// Returns the page id in a slot.
    #[inline]
    pub fn entry(&self, slot: u16) -> u32
        requires { slot < PAGE_SLOTS }
        ensures { result ≡ slice_index self.now.numbers slot }
    {
        self.numbers()[slot as usize]
    }

    /// Sets the page id of a slot.
    #[inline]
    pub fn set(&mut self, slot: u16, page_id: u32)
        requires { slot < PAGE_SLOTS }
        ensures { self.new.numbers ≡ slice_set self.old.numbers slot page_id }
    {
        self.numbers[slot as usize] = page_id;
    }

    /// Returns the page ids of all slots, in order.
    #[inline]
    pub fn numbers(&self) -> &[u32]
        ensures { result.now ≡ self.now.numbers }
    {
        &self.numbers
    }
}
