//! The law of this crate's definitions. It is the contract of a function that does nothing.
ghost use Rattle.risc_machine.specs.Laws.{HasCapacity};

/// States how many words a log of stores has room for.
pub const fn capacity_law()
    ensures { HasCapacity }
{}
