//! The sizes of a memory and its pages. The definitions in `specs/` have them as plain numbers, and a law states each by its value.

/// The number of words of a page.
pub const PAGE_WORDS: u32 = 256;

/// The number of page slots of a memory.
pub const PAGE_SLOTS: u16 = 1_024;

/// The number of words of a memory: the 1 MiB of RAM of Project Oberon (2013, hardware chapters).
pub const MEMORY_WORDS: u32 = 262_144;
