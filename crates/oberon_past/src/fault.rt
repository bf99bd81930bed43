//! Why a past is not changed, or a branch not made. `specs/Live.antt` says when each occurs.

use std::alloc::AllocError;
use thiserror::Error;

/// Why a call that changes a past, or copies it, is refused. The past is then of the same run as before, with the same end.
#[derive(Clone, Copy, Debug, PartialEq, Eq, Error)]
pub enum PastFault {
    /// The count is before the first one; or a run would go back.
    #[error("the count is too early")]
    Earlier,
    /// The count is after the end of the past.
    #[error("the count is after the end of the past")]
    Later,
    /// An input is before the end of the past; or the counts of inputs fall, or are above 2^40.
    #[error("an input does not come next")]
    Order,
    /// Memory ran out.
    #[error("no memory")]
    Memory,
}

impl From<AllocError> for PastFault {
    ghost use Rattle.std.specs.Prelude.{◌≡◌};
    ghost use Rattle.oberon_past.specs.declared.fault.PastFault.{PastFault};

    ghost from_gives = { λ _ fault. fault ≡ PastFault.Memory };

    fn from(_failure: AllocError) -> PastFault {
        PastFault::Memory
    }
}
