//! The replay of segment after segment on one machine, where each begins at the checkpoint at which the one before has ended.
//!
//! The replay of one segment is in `segment`, and the loop of a worker in `worker`.
ghost use Rattle.std.specs.Prelude.{◌≡◌, ◌<◌, IfOk};
ghost use Rattle.oberon_format.specs.Defined.{claimed};
ghost use Rattle.oberon_format.specs.Recording.{last_of};

use crate::segment::{SegmentVerdict, machine_at, replay_on};
use oberon_format::Recording;
use risc_machine::Machine;
use std::alloc::{AllocError, Global};
use std::marker::Model;

/// Replays segments of a recording. After a segment that held it keeps the machine, whose state is then what the next checkpoint
/// claims, and goes on with it if the next segment begins there.
///
/// In contracts a replayer is its recording.
#[derive(Drop)]
pub(crate) struct Replayer<'r> {
    recording: &'r Recording,
    machine: Option<Machine<'r>>,
    checkpoint: u32,
}

impl<'r> Model for Replayer<'r> {
    ghost use Rattle.oberon_format.specs.Recording.{RecordingParts};

    ghost Value = { RecordingParts };

    ghost use Rattle.std.specs.Prelude.{◌≡◌, IfSome};
    ghost use Rattle.oberon_format.specs.Defined.{claimed};

    ghost view = { λ p. p.recording.now };

    ghost invariant = { λ p. IfSome p.machine (λ m. m.state ≡ (claimed p.recording.now p.checkpoint).state) };
}

impl<'r> Replayer<'r> {
    /// Returns a replayer that has no machine yet.
    pub(crate) fn new(recording: &'r Recording) -> Self
        ensures { result ≡ recording.now }
    {
        Replayer {
            recording,
            machine: None,
            checkpoint: 0,
        }
    }

    /// Returns the recording.
    pub(crate) fn recording(&self) -> &Recording
        ensures { result.now ≡ self.now }
    {
        self.recording
    }

    /// Returns the machine that it has, if that has reached checkpoint `i`, and else a new one in the state that this checkpoint
    /// claims.
    fn machine_for(&mut self, alloc: Global, i: u32) -> Result<Machine<'r>, AllocError>
        requires { i < last_of self.old }
        ensures state { IfOk result (λ m. m.state ≡ (claimed self.old i).state) }
        ensures kept { self.new ≡ self.old }
    {
        match self.machine.take() {
            Some(machine) if self.checkpoint == i => Ok(machine),
            _ => machine_at(alloc, self.recording, i),
        }
    }

    /// Replays segment `i` from what checkpoint `i` claims, as `replay_segment` does. It fails only if memory runs out.
    pub(crate) fn replay(&mut self, alloc: Global, i: u32) -> Result<SegmentVerdict, AllocError>
        requires { i < last_of self.old }
        ensures recording { IfOk result (λ v. v.recording ≡ self.old) }
        ensures segment { IfOk result (λ v. v.segment ≡ i) }
        ensures kept { self.new ≡ self.old }
    {
        let mut machine = self.machine_for(alloc, i)?;
        let verdict = replay_on(&mut machine, self.recording, i)?;
        if verdict.part().is_none() {
            self.machine = Some(machine);
            self.checkpoint = i + 1;
        }
        Ok(verdict)
    }
}
