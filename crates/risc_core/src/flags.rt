//! The condition flags, how a value written to a register sets two of them, and the flags as one number. The carry and the
//! overflow of sums and differences are in `sums`; the branches that test them are in `branch`.

use crate::word::is_set;

/// The condition flags ("The RISC Architecture", N. Wirth).
#[derive(Clone, Copy, Debug, PartialEq, Eq)]
pub struct Flags {
    /// Negative: bit 31 of the last value written.
    pub n: bool,
    /// Zero: whether the last value written is 0.
    pub z: bool,
    /// Carry of the last sum, or borrow of the last difference (this project's own choice).
    pub c: bool,
    /// Overflow of the last sum or difference of signed values (this project's own choice).
    pub v: bool,
}

impl Flags {
    ghost use Rattle.std.specs.Prelude.{◌≡◌, ◌<◌};
    ghost use Rattle.risc_core.specs.Flags.{flags_number, flags_of};

    /// Returns the flags as one number below 16: N is bit 3, Z bit 2, C bit 1, V bit 0 (this project's own choice).
    #[inline]
    pub const fn number(self) -> u32
        ensures value { result ≡ flags_number self }
        ensures range { result < 16 }
    {
        8 * self.n as u32 + 4 * self.z as u32 + 2 * self.c as u32 + self.v as u32
    }

    /// Returns the flags of a number: N is its bit 3, Z bit 2, C bit 1, V bit 0 (this project's own choice). Its higher bits are
    /// ignored.
    #[inline]
    pub const fn from_number(number: u32) -> Flags
        ensures { result ≡ flags_of number }
    {
        Flags {
            n: is_set(number, 3),
            z: is_set(number, 2),
            c: is_set(number, 1),
            v: is_set(number, 0),
        }
    }
}

ghost use Rattle.std.specs.Prelude.{◌≡◌};
ghost use Rattle.risc_core.specs.Flags.{written_flags};

/// Returns the flags after `value` is written to a register: N is bit 31 of it, Z says whether it is 0, and C and V stay.
///
/// That loads and links set N and Z too is this project's own choice.
#[inline(always)]
pub const fn written(flags: Flags, value: u32) -> Flags
    ensures { result ≡ written_flags flags value }
{
    Flags {
        n: value >> 31 == 1,
        z: value == 0,
        c: flags.c,
        v: flags.v,
    }
}
