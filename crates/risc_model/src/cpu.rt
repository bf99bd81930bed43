//! The processor's registers, as callers pass them. What an instruction does to them is `Exec` in `specs/`.
ghost use Rattle.std.specs.Prelude.{◌≡◌, ◌<◌, ◌^◌, length, ℕ, slice_index};

use risc_core::Flags;

/// The processor of a machine ("The RISC Architecture", N. Wirth).
///
/// A machine can be started if the program counter is below 2^22 and the stop is at most 4.
#[derive(Clone, Copy, Debug, PartialEq, Eq)]
pub struct Cpu {
    /// Registers R0 to R15.
    pub r: [u32; 16],
    /// The auxiliary register H, which holds the high half of a product or the remainder of a division.
    pub h: u32,
    /// The word number of the next instruction.
    pub pc: u32,
    /// The condition flags.
    pub flags: Flags,
    /// Why the machine stopped, as `Stop::number` returns it; 0 while it runs (this project's own choice).
    pub stop: u8,
    pub ghost count: { length r ≡ 16 },
    pub ghost registers: { (a : ℕ) → slice_index r a < 2 ^ 32 },
    pub ghost auxiliary: { h < 2 ^ 32 },
    pub ghost counter: { pc < 2 ^ 32 },
    pub ghost stops: { stop < 2 ^ 8 },
}
