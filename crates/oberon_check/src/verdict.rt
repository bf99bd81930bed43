//! The verdict on a recording, its line and its exit status. `collector` makes it from segment verdicts.

use crate::part::Part;
use std::alloc::{AllocError, Global};

/// The result of the check of a recording.
#[derive(Clone, Copy, Debug, PartialEq, Eq)]
pub enum Verdict {
    /// Every checkpoint is the state and the output of one uninterrupted run from checkpoint 0.
    Accepted {
        /// The number of checkpoints after checkpoint 0, at most 4,096.
        checkpoints: u32,
        /// The last checkpoint's count, at most 2^40.
        steps: u64,
    },
    /// Some checkpoint is not.
    FalseAt {
        /// The number of the first such checkpoint, at least 1.
        checkpoint: u32,
        /// The count of this checkpoint.
        count: u64,
        /// The first part in which it differs from the run.
        part: Part,
    },
}

impl Verdict {
    ghost use Rattle.std.specs.Prelude.{◌≡◌, IfOk};
    ghost use Rattle.oberon_check.specs.Line.{line_of, status_of};

    /// Returns the verdict line, ended by a line feed.
    pub fn line(&self, alloc: Global) -> Result<Vec<u8>, AllocError>
        ensures { IfOk result (λ bytes. bytes.items ≡ line_of self.now) }
    {
        let line = match self {
            Verdict::Accepted { checkpoints, steps } => {
                format!(in alloc; "accepted {checkpoints} checkpoints {steps} steps\n")?
            }
            Verdict::FalseAt {
                checkpoint,
                count,
                part,
            } => format!(in alloc; "false checkpoint {checkpoint} at {count} part {part}\n")?,
        };
        Ok(line.into_bytes())
    }

    /// Returns the exit status of the verdict: 0 accepted, 1 false.
    pub fn status(&self) -> u8
        ensures { result ≡ status_of self.now }
    {
        match self {
            Verdict::Accepted { .. } => 0,
            Verdict::FalseAt { .. } => 1,
        }
    }
}
