//! The refusal of a number that is out of its range. `Devices::new` and `Input::new` say when they refuse.
use thiserror::Error;

/// A number from outside is out of its range.
#[derive(Clone, Copy, Debug, PartialEq, Eq, Error)]
#[error("a number is out of its range")]
pub struct RangeFault;

impl RangeFault {
    ghost use Rattle.std.specs.Prelude.{◌≡◌};

    /// Returns the refusal's number, which is 1.
    pub fn number(self) -> u8
        ensures { result ≡ 1 }
    {
        1
    }
}
