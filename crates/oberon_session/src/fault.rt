//! The faults of session files. `specs/Rules.antt` has the rules in the order in which they are tested.

ghost use Rattle.std.specs.Prelude.{◌≡◌};
ghost use Rattle.oberon_session.specs.FaultNames.{session_fault_name, session_fault_number};

use std::alloc::{AllocError, AllocFailed};
use thiserror::Error;

/// The first rule that a session file breaks, or that memory ran out.
///
/// The numbers, the names and the rules are this project's own choice.
#[derive(Clone, Copy, Debug, PartialEq, Eq, Error)]
pub enum SessionFault {
    /// 1, `json`: the bytes are not JSON, as `serde_json` defines it.
    #[error("the bytes are not JSON")]
    Json,
    /// 2, `shape`: a member, a type, the number of registers, or one of the fixed strings and numbers is wrong.
    #[error("the JSON does not have the shape of a session")]
    Shape,
    /// 3, `range`: a number is out of its range, something is too long, or there are too many of something.
    #[error("a number of the session is out of its range")]
    Range,
    /// 4, `order`: slots of pages or counts of checkpoints don't rise, or counts of inputs fall.
    #[error("the session is out of order")]
    Order,
    /// 5, `hex`: a page has an odd number of digits, or one that is not hexadecimal.
    #[error("a page of the session is not written in hexadecimal digits")]
    Hex,
    /// Memory ran out. It is not a fault of the file.
    #[error("no memory")]
    Memory,
}

impl SessionFault {
    /// Returns the fault's number, from 1 to 5; none for `Memory`.
    pub fn number(self) -> Option<u8>
        ensures { result ≡ session_fault_number self }
    {
        match self {
            SessionFault::Json => Some(1),
            SessionFault::Shape => Some(2),
            SessionFault::Range => Some(3),
            SessionFault::Order => Some(4),
            SessionFault::Hex => Some(5),
            SessionFault::Memory => None,
        }
    }

    pub fn name(self) -> &'static str
        ensures { result.now ≡ session_fault_name self }
    {
        match self {
            SessionFault::Json => "json",
            SessionFault::Shape => "shape",
            SessionFault::Range => "range",
            SessionFault::Order => "order",
            SessionFault::Hex => "hex",
            SessionFault::Memory => "memory",
        }
    }
}

impl From<AllocError> for SessionFault {
    ghost use Rattle.std.specs.Prelude.{◌≡◌};
    ghost use Rattle.oberon_session.specs.declared.fault.SessionFault.{SessionFault};

    ghost from_gives = { λ _ fault. fault ≡ SessionFault.Memory };

    fn from(_failure: AllocError) -> SessionFault {
        SessionFault::Memory
    }
}

impl<T: Drop> From<AllocFailed<T>> for SessionFault {
    ghost use Rattle.std.specs.Prelude.{◌≡◌};
    ghost use Rattle.oberon_session.specs.declared.fault.SessionFault.{SessionFault};

    ghost from_gives = { λ _ fault. fault ≡ SessionFault.Memory };

    fn from(_failure: AllocFailed<T>) -> SessionFault {
        SessionFault::Memory
    }
}
