//! The conditions that a search looks for. `meeting` tests them.

use crate::register::Register;
use crate::span::Span;
use crate::values::Values;

/// What holds at a count n of a run. The instruction of count n is the one that the machine does after it took the inputs of this
/// count.
#[derive(Clone, Copy, Debug, PartialEq, Eq)]
pub enum Condition {
    /// The machine runs at count n, and its program counter, a word number, is in the range: a breakpoint.
    Counter(Span),
    /// The instruction stores to one of these bytes, of RAM or of the device words, whatever the value.
    Store(Span),
    /// A bit of one of these bytes of RAM differs after the instruction, and the mask names it. Bit i of the mask names bit i of
    /// each word.
    Change(Span, u32),
    /// The instruction loads one of these bytes, of RAM or of the device words.
    Load(Span),
    /// The register is not this value before the instruction, and is after it.
    Becomes(Register, u32),
    /// The instruction sends a byte.
    Sends,
    /// The instruction sends this byte.
    SendsByte(u8),
    /// The machine runs at count n, and takes an input of the kind with this number, from 1 to 5.
    Takes(u8),
    /// The instruction stops the machine.
    Stops,
    /// The instruction writes the register, whatever the value, and does not stop the machine.
    Writes(Register),
    /// The instruction writes one of the flags that the mask names, whatever the value, and does not stop the machine. N is 8 in the
    /// mask, Z 4, C 2 and V 1. N and Z are written with each of R0 to R15, C and V by sums and differences alone.
    WritesFlags(u32),
    /// A bit of the register differs after the instruction, and the mask names it.
    Alters(Register, u32),
    /// The machine runs at count n, and the register has one of these values before the instruction.
    Is(Register, Values),
    /// The machine runs at count n, and the bits that the mask, the second number, names of the word of RAM with the first number have
    /// one of these values before the instruction.
    IsWord(u32, u32, Values),
}

/// A condition, and whether it is joined to the one after it in its list: then they hold where both hold.
#[derive(Clone, Copy, Debug, PartialEq, Eq)]
pub struct Clause {
    /// The condition.
    pub condition: Condition,
    /// Whether it is joined to the condition of the next clause.
    pub joined: bool,
}
