//! Recordings: pool, inputs and checkpoints that are lawful together. Reading, writing and the faults of parts are in modules of
//! their own.

ghost use Rattle.std.specs.Prelude.{◌≡◌, ◌<◌, length, map};
ghost use Rattle.oberon_format.specs.CheckpointParts.{checkpoint_parts};
ghost use Rattle.oberon_format.specs.Recording.{IsLawfulWithDisk, IsFit, checkpoint_at, parts_of};

use crate::checkpoint::Checkpoint;
use crate::fault::Fault;
use crate::layout::{VERSION, VERSION_WITH_DISK};
use crate::parts::parts_fault;
use risc_model::Inputs;
use risc_pages::Pool;
use std::marker::Model;

/// A lawful recording: a pool of pages, inputs with their counts, and checkpoints 0 to K.
///
/// | what | limit |
/// |---|---|
/// | pages in the pool | at most 65,536 |
/// | inputs | at most 4,000,000, their counts not falling and at most 2^40 |
/// | checkpoints | from 1 to 4,097: the first at count 0 with no output, their counts rising and at most 2^40 |
/// | output in all | at most 1,048,576 bytes |
/// | processor of a checkpoint | its program counter below 2^22, its stop at most 4 |
/// | timer of a checkpoint | its phase below its rate, or 0 at rate 0 |
/// | table of a checkpoint | page ids of the pool |
///
/// `read` and `from_parts` give one of a machine without a disk: it has at most 1,000,000 inputs, and no input and no checkpoint has
/// an answer of a disk. All limits are this project's own choice. In contracts a recording is the record of its parts.
#[derive(Drop)]
pub struct Recording {
    pool: Pool,
    inputs: Inputs,
    checkpoints: Vec<Checkpoint>,
}

impl Model for Recording {
    ghost use Rattle.oberon_format.specs.Recording.{RecordingParts, IsLawfulWithDisk, parts_of};

    ghost Value = { RecordingParts };

    ghost view = { λ r. parts_of r.pool r.inputs r.checkpoints.items };

    ghost invariant = { λ r. IsLawfulWithDisk (parts_of r.pool r.inputs r.checkpoints.items) };
}

impl Recording {
    ghost use Rattle.std.specs.Prelude.{◌≡◌, ◌↔◌, IfErr, IsOk, MatchOption};
    ghost use Rattle.oberon_format.specs.Line.{IsNamedFault};
    ghost use Rattle.oberon_format.specs.PartFields.{fault_of_parts, fault_of_parts_with_disk};
    ghost use Rattle.oberon_format.specs.Recording.{parts_of, output_of, IsLawful, IsLawfulWithDisk};

    /// Makes the recording of these parts, of a machine without a disk.
    ///
    /// Refuses exactly if the file of version 2 that encodes them has a first fault, and returns that fault: a number too large for
    /// its field breaks that field's rule. Such a file has no answers of a disk: an input that is one breaks the rule of its event. If
    /// the file has no fault, but a checkpoint has an answer, returns the fault of the first such checkpoint, at its start. The parts
    /// are then dropped. Never returns `Memory`.
    pub fn from_parts(
        pool: Pool,
        inputs: Inputs,
        checkpoints: Vec<Checkpoint>,
    ) -> Result<Recording, Fault>
        // The recording has these parts; if their file has a fault, the first one is the answer.
        ensures parts { let parts = parts_of pool inputs checkpoints.items in
            MatchOption (fault_of_parts parts) (result ≡ Ok parts) (λ f. result ≡ Err f) }
        // It is made if and only if they are lawful.
        ensures lawful { IsOk result ↔ IsLawful (parts_of pool inputs checkpoints.items) }
        // Nothing is allocated, so no allocation fails.
        ensures named { IfErr result IsNamedFault }
    {
        if let Some(fault) = parts_fault(VERSION, &pool, &inputs, &checkpoints) {
            return Err(fault);
        }
        Ok(Recording::from_lawful(pool, inputs, checkpoints))
    }

    /// Makes the recording of these parts, which may have answers of a disk, and as many inputs as version 3 may have.
    ///
    /// Refuses exactly if the file of version 3 that encodes them has a first fault, and returns that fault, as `from_parts` does.
    pub fn from_parts_with_disk(
        pool: Pool,
        inputs: Inputs,
        checkpoints: Vec<Checkpoint>,
    ) -> Result<Recording, Fault>
        ensures parts { let parts = parts_of pool inputs checkpoints.items in
            MatchOption (fault_of_parts_with_disk parts) (result ≡ Ok parts) (λ f. result ≡ Err f) }
        ensures lawful { IsOk result ↔ IsLawfulWithDisk (parts_of pool inputs checkpoints.items) }
        ensures named { IfErr result IsNamedFault }
    {
        if let Some(fault) = parts_fault(VERSION_WITH_DISK, &pool, &inputs, &checkpoints) {
            return Err(fault);
        }
        Ok(Recording::from_lawful(pool, inputs, checkpoints))
    }

    pub(crate) fn from_lawful(pool: Pool, inputs: Inputs, checkpoints: Vec<Checkpoint>) -> Recording
        requires { IsLawfulWithDisk (parts_of pool inputs checkpoints.items) }
        ensures { result ≡ parts_of pool inputs checkpoints.items }
    {
        Recording {
            pool,
            inputs,
            checkpoints,
        }
    }

    /// Returns the parts of the recording. Allocates nothing.
    pub fn into_parts(self) -> (Pool, Inputs, Vec<Checkpoint>)
        ensures parts { parts_of result.0 result.1 result.2.items ≡ self }
        ensures lawful { IsLawfulWithDisk self }
    {
        let Recording {
            pool,
            inputs,
            checkpoints,
        } = self;
        (pool, inputs, checkpoints)
    }

    /// Returns the pages that the checkpoints' tables name.
    pub fn pool(&self) -> &Pool
        ensures pool { result.now ≡ self.now.pool }
        ensures lawful { IsLawfulWithDisk self.now }
    {
        &self.pool
    }

    /// Returns the inputs, in the order of their counts.
    pub fn inputs(&self) -> &Inputs
        ensures inputs { result.now ≡ self.now.inputs }
        ensures lawful { IsLawfulWithDisk self.now }
    {
        &self.inputs
    }

    /// Returns the number of checkpoints, K + 1: from 1 to 4,097.
    pub fn count(&self) -> u32
        ensures count { result ≡ length self.now.checkpoints }
        ensures lawful { IsLawfulWithDisk self.now }
    {
        self.checkpoints.len() as u32
    }

    pub(crate) fn checkpoints(&self) -> &[Checkpoint]
        ensures checkpoints { map checkpoint_parts result.now ≡ self.now.checkpoints }
        ensures count { length result.now ≡ length self.now.checkpoints }
        ensures lawful { IsLawfulWithDisk self.now }
    {
        &self.checkpoints
    }

    /// Returns checkpoint k, from 0 to K.
    pub fn checkpoint(&self, k: u32) -> &Checkpoint
        requires { k < length self.now.checkpoints }
        ensures checkpoint { checkpoint_parts result.now ≡ checkpoint_at self.now k }
        ensures fit { IsFit self.now.pool (checkpoint_parts result.now) }
        ensures lawful { IsLawfulWithDisk self.now }
    {
        &self.checkpoints[k as usize]
    }

    /// Returns the number of bytes that all checkpoints sent, at most 1,048,576.
    pub fn output_len(&self) -> usize
        ensures len { result ≡ length (output_of self.now.checkpoints) }
        ensures lawful { IsLawfulWithDisk self.now }
    {
        let mut len = 0;
        for k in 0..self.count() {
            len += self.checkpoint(k).sent.len();
        }
        len
    }
}
