//! Why a draft is not begun, or gets no checkpoint. `specs/Draft.antt` says when each occurs.

use oberon_session::ExtendFault;
use std::alloc::AllocError;
use thiserror::Error;

/// Why a past is not recorded. It is then of the same run as before, with the same end, and the draft is dropped.
#[derive(Clone, Copy, Debug, PartialEq, Eq, Error)]
pub enum DraftFault {
    /// The past begins after count 0, at which each recording begins.
    #[error("the past does not begin at count 0")]
    Start,
    /// The count is after the end of the past.
    #[error("the count is after the end of the past")]
    Later,
    /// The count is not above that of the last checkpoint, or is above 2^40; or the draft is not one of this past.
    #[error("the checkpoint does not come next")]
    Order,
    /// More than 4,000,000 inputs; or more than 1,000,000, and no answer of a disk.
    #[error("the recording has too many inputs")]
    Inputs,
    /// More than 4,097 checkpoints.
    #[error("the recording has too many checkpoints")]
    Checkpoints,
    /// More than 1,048,576 bytes sent in all.
    #[error("the recording sends too much")]
    Output,
    /// More than 65,536 pages.
    #[error("the recording has too many pages")]
    Pages,
    /// Memory ran out.
    #[error("no memory")]
    Memory,
}

impl From<AllocError> for DraftFault {
    ghost use Rattle.std.specs.Prelude.{◌≡◌};
    ghost use Rattle.oberon_past.specs.declared.draft_fault.DraftFault.{DraftFault};

    ghost from_gives = { λ _ fault. fault ≡ DraftFault.Memory };

    fn from(_failure: AllocError) -> DraftFault {
        DraftFault::Memory
    }
}

impl From<ExtendFault> for DraftFault {
    ghost use Rattle.std.specs.Prelude.{◌≡◌};
    ghost use Rattle.oberon_past.specs.inner.Drafting.{draft_fault};

    ghost from_gives = { λ fault result. result ≡ draft_fault fault };

    fn from(fault: ExtendFault) -> DraftFault {
        match fault {
            ExtendFault::Pending | ExtendFault::Order => DraftFault::Order,
            ExtendFault::Inputs => DraftFault::Inputs,
            ExtendFault::Checkpoints => DraftFault::Checkpoints,
            ExtendFault::Output => DraftFault::Output,
            ExtendFault::Pages => DraftFault::Pages,
            ExtendFault::Memory => DraftFault::Memory,
        }
    }
}
