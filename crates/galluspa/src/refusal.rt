//! Why a call on a machine was refused, and the number that a caller in C gets.
use std::alloc::AllocError;

/// The length that `galluspa_check`, `galluspa_record` and `galluspa_migrate` return in place of that of an answer, if memory ran
/// out. No answer is empty. It is 0, as `DONE` is, which they never return.
pub const NO_ANSWER: usize = 0;

/// The call succeeded.
pub const DONE: u8 = 0;

/// A number is out of its range, a slice is not of its length, or inputs are out of order.
pub const OUT_OF_RANGE: u8 = 1;

/// There are more bytes than there is room for.
pub const NO_ROOM: u8 = 2;

/// An allocation failed.
pub const OUT_OF_MEMORY: u8 = 3;

/// The bytes are not a recording.
pub const NO_RECORDING: u8 = 4;

/// The recording has no such checkpoint.
pub const NO_CHECKPOINT: u8 = 5;

/// The recording would have more than 4,000,000 inputs; or, if no disk answers, more than 1,000,000.
pub const TOO_MANY_INPUTS: u8 = 6;

/// The recording would have more than 4,097 checkpoints.
pub const TOO_MANY_CHECKPOINTS: u8 = 7;

/// The recording would send more than 1,048,576 bytes.
pub const TOO_MUCH_OUTPUT: u8 = 8;

/// The recording would have more than 65,536 pages.
pub const TOO_MANY_PAGES: u8 = 9;

/// The recording has inputs at or after its last checkpoint.
pub const PENDING_INPUTS: u8 = 10;

/// No condition of a search holds at any of its counts.
pub const NOT_FOUND: u8 = 11;

/// The budget is spent: call again to go on.
pub const MORE: u8 = 12;

/// No past is open.
pub const CLOSED: u8 = 13;

/// A count is after the end of the past.
pub const LATER: u8 = 14;

/// Why a call did nothing that gives a caller no bytes of its own: room is never short.
#[derive(Clone, Copy)]
pub enum RangeOrMemory {
    /// A number is out of its range, a slice is not of its length, or inputs are out of order.
    Range,
    /// An allocation failed.
    Memory,
}

impl From<AllocError> for RangeOrMemory {
    ghost use Rattle.std.specs.Prelude.{◌≡◌};
    ghost use Rattle.galluspa.specs.declared.refusal.RangeOrMemory.{RangeOrMemory};

    ghost from_gives = { λ _ refusal. refusal ≡ RangeOrMemory.Memory };

    fn from(_failure: AllocError) -> RangeOrMemory {
        RangeOrMemory::Memory
    }
}

/// Why a machine was not advanced.
#[derive(Clone, Copy)]
pub enum Refusal {
    /// A number is out of its range, a slice is not of its length, or inputs are out of order.
    Range,
    /// More bytes are sent than there is room for.
    Room,
    /// An allocation failed.
    Memory,
}

impl From<AllocError> for Refusal {
    ghost use Rattle.std.specs.Prelude.{◌≡◌};
    ghost use Rattle.galluspa.specs.declared.refusal.Refusal.{Refusal};

    ghost from_gives = { λ _ refusal. refusal ≡ Refusal.Memory };

    fn from(_failure: AllocError) -> Refusal {
        Refusal::Memory
    }
}
