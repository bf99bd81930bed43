//! The faults for which a session has no recording. `specs/Recorded.antt` defines when each occurs.

ghost use Rattle.std.specs.Prelude.{◌≡◌};
ghost use Rattle.oberon_session.specs.FaultNames.{record_fault_name, record_fault_number};

use std::alloc::{AllocError, AllocFailed};
use thiserror::Error;

/// The limit that a recording would exceed, or that memory ran out.
///
/// The numbers, the names and the limits are this project's own choice.
#[derive(Clone, Copy, Debug, PartialEq, Eq, Error)]
pub enum RecordFault {
    /// 1, `output`: more than 1,048,576 bytes are sent up to a checkpoint.
    #[error("the session sends too much")]
    Output,
    /// 2, `pages`: more than 65,536 pages are needed up to a checkpoint.
    #[error("the session changes too many pages")]
    Pages,
    /// Memory ran out. It is not a fault of the session.
    #[error("no memory")]
    Memory,
}

impl RecordFault {
    /// Returns the fault's number, 1 or 2; none for `Memory`.
    pub fn number(self) -> Option<u8>
        ensures { result ≡ record_fault_number self }
    {
        match self {
            RecordFault::Output => Some(1),
            RecordFault::Pages => Some(2),
            RecordFault::Memory => None,
        }
    }

    pub fn name(self) -> &'static str
        ensures { result.now ≡ record_fault_name self }
    {
        match self {
            RecordFault::Output => "output",
            RecordFault::Pages => "pages",
            RecordFault::Memory => "memory",
        }
    }
}

impl From<AllocError> for RecordFault {
    ghost use Rattle.std.specs.Prelude.{◌≡◌};
    ghost use Rattle.oberon_session.specs.declared.record_fault.RecordFault.{RecordFault};

    ghost from_gives = { λ _ fault. fault ≡ RecordFault.Memory };

    fn from(_failure: AllocError) -> RecordFault {
        RecordFault::Memory
    }
}

impl<T: Drop> From<AllocFailed<T>> for RecordFault {
    ghost use Rattle.std.specs.Prelude.{◌≡◌};
    ghost use Rattle.oberon_session.specs.declared.record_fault.RecordFault.{RecordFault};

    ghost from_gives = { λ _ fault. fault ≡ RecordFault.Memory };

    fn from(_failure: AllocFailed<T>) -> RecordFault {
        RecordFault::Memory
    }
}
