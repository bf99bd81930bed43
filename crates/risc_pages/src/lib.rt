//! Copy-on-write memory in pages.
//!
//! A memory has 262,144 words in 1,024 pages of 256 words. Its pages come from a [`Pool`], by the page ids of a [`Table`]. A
//! [`Memory`] borrows them, and copies a page at the first write to it. The content of a memory is a plain map from word number
//! to word: page ids are no part of it. The numbering of words, page slots and pages is this project's own choice.
//!
//! This crate has pages, pools, tables, memories, and the changes of a memory. Addresses, bytes and devices are elsewhere.
#![tactic(auto)]

mod detached;
mod laws;
mod memory;
mod page;
mod pool;
mod sizes;
mod slot;
mod table;

pub use detached::DetachedMemory;
pub use laws::sizes_law;
pub use memory::{Delta, Memory};
pub use page::Page;
pub use pool::Pool;
pub use sizes::{MEMORY_WORDS, PAGE_SLOTS, PAGE_WORDS};
pub use table::Table;
