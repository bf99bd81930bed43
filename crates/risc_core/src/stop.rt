//! The reasons why a machine stops. Which operation stops it is documented at `alu`, and which address at `Place`.

/// Why a machine stopped. That a machine stops, its reasons and their numbers are this project's own choice.
#[derive(Clone, Copy, Debug, PartialEq, Eq)]
pub enum Stop {
    /// An operation on floating-point numbers, 12 to 15.
    Float,
    /// A division by a divisor whose signed value is below 1.
    Divisor,
    /// A program counter of 262,144 or more, beyond the words of RAM.
    Fetch,
    /// A load or a store whose address is neither RAM nor a device word.
    Address,
}

impl Stop {
    ghost use Rattle.std.specs.Prelude.{◌≡◌};
    ghost use Rattle.risc_core.specs.Stop.{stop_number};

    /// Returns the number of the stop, 1 to 4 in the order of the variants; 0 is reserved for a machine that runs (this project's
    /// own choice).
    #[inline]
    pub const fn number(self) -> u8
        ensures { result ≡ stop_number self }
    {
        match self {
            Stop::Float => 1,
            Stop::Divisor => 2,
            Stop::Fetch => 3,
            Stop::Address => 4,
        }
    }
}
