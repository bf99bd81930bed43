//! Sessions as the recorder takes them. `reading` reads one from JSON, and `parts` tests the parts of one.

ghost use Rattle.std.specs.Prelude.{◌≡◌, ◌<◌};

use crate::SessionFault;
use crate::digits::PlacedPage;
use crate::parts::parts_fault;
use risc_devices::UNANSWERED;
use risc_model::{Cpu, Inputs};
use std::marker::Model;

/// A lawful session: an initial state, inputs with their counts, and the counts of checkpoints 1 to K.
///
/// | what | limit |
/// |---|---|
/// | program counter of the initial state | below 2^22 |
/// | the timer's rate and phase in it | below 2^32, the phase below the rate, or 0 if the rate is 0 |
/// | pages of the initial memory | at most 1,024, their slots below 1,024 and rising |
/// | inputs | at most 4,000,000, their counts not falling and at most 2^40 |
/// | checkpoints | at most 4,096, their counts from 1 to 2^40 and rising |
///
/// The initial state is not stopped. Everything else in its devices is zero, but for what its disk answered last, and so is its
/// memory outside these pages. Without a disk, no disk answers, before it or in an input, and there are at most 1,000,000 inputs. All
/// limits are this project's own choice. In contracts a session is the record of its parts.
#[derive(Drop)]
pub struct Session {
    pub(crate) cpu: Cpu,
    pub(crate) rate: u32,
    pub(crate) phase: u32,
    pub(crate) disk: u32,
    pub(crate) pages: Vec<PlacedPage>,
    pub(crate) inputs: Inputs,
    pub(crate) counts: Vec<u64>,
}

impl Model for Session {
    ghost use Rattle.oberon_session.specs.SessionParts.{SessionParts, IsLawfulWithDisk};
    ghost use Rattle.oberon_session.specs.Parts.{session_of_parts};

    ghost Value = { SessionParts };

    ghost view = { λ s. session_of_parts s.cpu s.rate s.phase s.disk s.pages.items s.inputs s.counts.items };

    ghost invariant = { λ s. IsLawfulWithDisk (session_of_parts s.cpu s.rate s.phase s.disk s.pages.items s.inputs s.counts.items) };
}

impl Session {
    ghost use Rattle.std.specs.Prelude.{◌≡◌, ◌↔◌, IfErr, IfOk, IsOk, map};
    ghost use Rattle.risc_model.specs.MachineState.{cpu_state};
    ghost use Rattle.oberon_session.specs.Parts.{BreaksParts, placed_view, session_of_parts};
    ghost use Rattle.risc_devices.specs.declared.disk.TheConstants.{UNANSWERED};
    ghost use Rattle.oberon_session.specs.SessionParts.{IsLawful, IsLawfulWithDisk};

    /// Returns the session of these parts, of a machine without a disk, or the first rule that they break: numbers are in their ranges,
    /// no list is too long, no input is of a disk and the processor runs (`Range`), and then slots of pages and counts of checkpoints
    /// rise (`Order`).
    ///
    /// The timer of the initial state has this rate and this phase; both are 0 for a timer that only inputs set. On an error the
    /// parts are dropped. It allocates nothing.
    pub fn from_parts(
        cpu: Cpu,
        rate: u32,
        phase: u32,
        pages: Vec<PlacedPage>,
        inputs: Inputs,
        counts: Vec<u64>,
    ) -> Result<Session, SessionFault>
        // The session has these parts.
        ensures session { IfOk result (λ session. session ≡ session_of_parts cpu rate phase UNANSWERED pages.items inputs counts.items) }
        // It is returned exactly if they are lawful.
        ensures lawful { IsOk result ↔ IsLawful (session_of_parts cpu rate phase UNANSWERED pages.items inputs counts.items) }
        // Otherwise the error is the first rule that they break.
        ensures refused { IfErr result (BreaksParts (session_of_parts cpu rate phase UNANSWERED pages.items inputs counts.items)) }
    {
        if let Some(fault) = parts_fault(&cpu, rate, phase, &pages, &inputs, &counts) {
            return Err(fault);
        }
        Ok(Session {
            cpu,
            rate,
            phase,
            disk: UNANSWERED,
            pages,
            inputs,
            counts,
        })
    }

    /// Returns the processor of the initial state. It is not stopped.
    pub(crate) fn cpu(&self) -> Cpu
        ensures cpu { cpu_state result ≡ self.now.cpu }
        ensures lawful { IsLawfulWithDisk self.now }
    {
        self.cpu
    }

    /// Returns the number of instructions in a millisecond of the timer; 0 if inputs alone set the timer.
    pub(crate) fn rate(&self) -> u32
        ensures rate { result ≡ self.now.rate }
        ensures lawful { IsLawfulWithDisk self.now }
    {
        self.rate
    }

    /// Returns how many instructions of the timer's first millisecond are done in the initial state: below the rate, or 0 if the
    /// rate is 0.
    pub(crate) fn phase(&self) -> u32
        ensures phase { result ≡ self.now.phase }
        ensures lawful { IsLawfulWithDisk self.now }
    {
        self.phase
    }

    /// Returns what the disk answered last, up to the initial state.
    pub(crate) fn disk(&self) -> u32
        ensures disk { result ≡ self.now.disk }
        ensures lawful { IsLawfulWithDisk self.now }
    {
        self.disk
    }

    /// Returns the pages of the initial memory, each with its slot.
    pub(crate) fn pages(&self) -> &[PlacedPage]
        ensures pages { map placed_view result.now ≡ self.now.pages }
        ensures lawful { IsLawfulWithDisk self.now }
    {
        &self.pages
    }

    /// Returns the inputs, in the order of their counts.
    pub(crate) fn inputs(&self) -> &Inputs
        ensures inputs { result.now ≡ self.now.inputs }
        ensures lawful { IsLawfulWithDisk self.now }
    {
        &self.inputs
    }

    /// Returns the counts of checkpoints 1 to K, in rising order. Checkpoint 0, at count 0, is not among them.
    pub(crate) fn counts(&self) -> &[u64]
        ensures counts { result.now ≡ self.now.counts }
        ensures lawful { IsLawfulWithDisk self.now }
    {
        &self.counts
    }
}
