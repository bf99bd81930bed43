//! Bytes with their status. The one answer that is made here is that to bytes that are not a recording, which three calls give.
ghost use Rattle.std.specs.Prelude.{◌≢◌, IfOk};
ghost use Rattle.oberon_answers.specs.inner.Answering.{IsFaultAnswer};

use crate::lengths::refusal_fits;
use oberon_format::{Fault, refusal};
use std::alloc::{AllocError, Global};

/// Bytes to write, and the exit status after all of them are written.
#[derive(Drop)]
pub struct Answer {
    /// A line, a picture or a recording.
    pub bytes: Vec<u8>,
    /// 0 done or accepted, 1 false, 2 refused.
    pub status: u8,
}

/// Returns the line of the first rule that bytes break.
pub fn refused(alloc: Global, fault: &Fault) -> Result<Answer, AllocError>
    requires { fault.now ≢ Fault.Memory }
    ensures { IfOk result (λ answer. IsFaultAnswer fault.now answer.bytes.items answer.status) }
{
    refusal_fits(fault);
    let bytes = refusal(alloc, fault)?;
    Ok(Answer { bytes, status: 2 })
}
