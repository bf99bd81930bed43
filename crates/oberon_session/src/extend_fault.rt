//! The faults for which a recording is not extended. `specs/Extended.antt` defines when each occurs.

use std::alloc::{AllocError, AllocFailed};
use thiserror::Error;

/// Why a recording is not extended: the first of these rules that is broken, in this order; or memory ran out.
///
/// The rules and their limits are this project's own choice.
#[derive(Clone, Copy, Debug, PartialEq, Eq, Error)]
pub enum ExtendFault {
    /// The recording has an input at or after its last checkpoint. A run from there would take that input, too.
    #[error("the recording has inputs at or after its last checkpoint")]
    Pending,
    /// The count is not above that of the last checkpoint, or is above 2^40; an input is not between the two; or the counts of
    /// inputs fall.
    #[error("the checkpoint or an input does not come next")]
    Order,
    /// More than 4,000,000 inputs; or more than 1,000,000, and neither the recording nor what is new has an answer of a disk.
    #[error("the recording has too many inputs")]
    Inputs,
    /// More than 4,097 checkpoints.
    #[error("the recording has too many checkpoints")]
    Checkpoints,
    /// More than 1,048,576 bytes sent in all.
    #[error("the recording sends too much")]
    Output,
    /// More than 65,536 pages.
    #[error("the recording has too many pages")]
    Pages,
    /// Memory ran out.
    #[error("no memory")]
    Memory,
}

impl From<AllocError> for ExtendFault {
    ghost use Rattle.std.specs.Prelude.{◌≡◌};
    ghost use Rattle.oberon_session.specs.declared.extend_fault.ExtendFault.{ExtendFault};

    ghost from_gives = { λ _ fault. fault ≡ ExtendFault.Memory };

    fn from(_failure: AllocError) -> ExtendFault {
        ExtendFault::Memory
    }
}

impl<T: Drop> From<AllocFailed<T>> for ExtendFault {
    ghost use Rattle.std.specs.Prelude.{◌≡◌};
    ghost use Rattle.oberon_session.specs.declared.extend_fault.ExtendFault.{ExtendFault};

    ghost from_gives = { λ _ fault. fault ≡ ExtendFault.Memory };

    fn from(_failure: AllocFailed<T>) -> ExtendFault {
        ExtendFault::Memory
    }
}
