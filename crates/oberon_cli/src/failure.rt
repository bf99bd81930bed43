//! Why the program has no answer, with the line and the status of each reason.
ghost use Rattle.std.specs.Prelude.{◌≡◌};
ghost use Rattle.oberon_cli.specs.Reply.{failure_line, failure_status};

use std::alloc::AllocError;

/// Why there is no answer.
#[derive(Clone, Copy, Debug, PartialEq, Eq)]
pub enum Failure {
    /// The arguments are invalid.
    Words,
    /// The input could not be read.
    Read,
    /// Memory ran out.
    Memory,
}

impl Failure {
    /// Returns the line of the failure, ended by a line feed. Allocates nothing.
    pub fn line(self) -> &'static str
        ensures { result.now ≡ failure_line self }
    {
        match self {
            Failure::Words => "words refused\n",
            Failure::Read => "read fault\n",
            Failure::Memory => "no memory\n",
        }
    }

    /// Returns the exit status: 4 for refused arguments, 3 for the others.
    pub fn status(self) -> u8
        ensures { result ≡ failure_status self }
    {
        match self {
            Failure::Words => 4,
            Failure::Read | Failure::Memory => 3,
        }
    }
}

impl From<AllocError> for Failure {
    ghost use Rattle.oberon_cli.specs.declared.failure.Failure.{Failure};

    ghost from_gives = { λ _ failure. failure ≡ Failure.Memory };

    fn from(_error: AllocError) -> Failure {
        Failure::Memory
    }
}
