//! The laws of this crate's definitions. Each is the contract of a function that does nothing.
ghost use Rattle.risc_core.specs.Laws.{DivisionLaw, BitsLaw, WidthLaw, FlagsLaw, NumbersLaw, CounterLaw, InstructionLaw};

/// States that the quotient and the remainder are the only pair of their definition.
pub const fn division_law()
    ensures { DivisionLaw }
{}

/// States that a number given bit by bit has those bits.
pub const fn bits_law()
    ensures { BitsLaw }
{}

/// States that a number given bit by bit is below 2 to the power of its width.
pub const fn width_law()
    ensures { WidthLaw }
{}

/// States that values of the flags and numbers below 16 correspond one to one.
pub const fn flags_law()
    ensures { FlagsLaw }
{}

/// States the number of each operation, of each condition and of the link register.
pub const fn numbers_law()
    ensures { NumbersLaw }
{}

/// States the value of the end of the program counters.
pub const fn counter_law()
    ensures { CounterLaw }
{}

/// States that each word is the sum of the fields of one instruction, and of no other.
pub const fn instruction_law()
    ensures { InstructionLaw }
{}
