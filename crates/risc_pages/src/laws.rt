//! The law of the sizes: the value of each name.
ghost use Rattle.risc_pages.specs.Laws.{HasSizes};

/// States the number of words of a page, of page slots of a memory, and of words of a memory.
pub const fn sizes_law()
    ensures { HasSizes }
{}
