//! The last write of a part: who wrote a register, a word of memory or a device last, and who changed it last.
//!
//! As a search, it keeps nothing for a later one: the answer depends on the run and on the question alone.
ghost use Rattle.std.specs.Prelude.{◌≡◌, ◌<◌, ◌-◌, ◌^◌, IfOk, OnErr};
ghost use Rattle.risc_model.specs.InputOrder.{AreOrdered};
ghost use Rattle.risc_search.specs.Condition.{HasInput};
ghost use Rattle.oberon_past.specs.Past.{IsLonger};
ghost use Rattle.oberon_past.specs.Search.{IsRange};
ghost use Rattle.oberon_past.specs.Writes.{AdvancesWrite, HasWriter, IsLastInput, IsWriter, IsWritten};

use crate::found::{Found, Which};
use crate::part::{Part, WriteKind, clauses};
use crate::past::Past;
use crate::steps::Steps;
use crate::write::{LastWrite, Write, Writer};
use risc_model::{Event, first_from};
use std::alloc::{AllocError, Global};

impl Past {
    /// Finds the last write of a part before the count `before`; or the last one that changed it, which is the same write or an earlier
    /// one.
    ///
    /// After `More(count)`, ask again with the count in place of `before`: the answer about the rest of the range is the answer about
    /// the range (`search_law`). Each `More` has added a keyframe or searched a part of the range, so asking again ends.
    ///
    /// It does as many instructions as a search for the last hit of the counts before `before`. If memory runs out, keyframes may have
    /// been added.
    pub fn write(
        &mut self,
        alloc: Global,
        part: Part,
        kind: WriteKind,
        before: u64,
        budget: Steps,
    ) -> Result<LastWrite, AllocError>
        // It is the last write in the one run.
        ensures written { IfOk result (IsWritten self.old.run self.old.end part kind before) }
        // Only a question about counts of the past can fail.
        ensures inside { OnErr result (IsRange self.old.run self.old.end self.old.run.start before) }
        // The past is of the same run, with keyframes added.
        ensures longer { IsLonger self.old self.new }
        // Asking again ends.
        ensures advances { IfOk result (AdvancesWrite self.old self.new before) }
    {
        let clauses = clauses(part, kind);
        let list = &clauses.list[..clauses.count];
        let first = self.extent().first;
        match self.find(alloc, first, before, list, Which::Last, budget)? {
            Found::Done(Some(hit)) => {
                let by = writer(self.inputs.events(), part, hit.count);
                Ok(LastWrite::Done(Some(Write {
                    count: hit.count,
                    by,
                })))
            }
            Found::Done(None) => Ok(LastWrite::Done(None)),
            Found::More(at) => Ok(LastWrite::More(at)),
            Found::OutOfRange(fault) => Ok(LastWrite::OutOfRange(fault)),
        }
    }
}

/// Returns what writes a part at a count.
fn writer(events: &[Event], part: Part, at: u64) -> Writer
    requires order { AreOrdered events.now }
    requires below { at < 2 ^ 64 - 1 }
    requires there { HasWriter part events.now at }
    ensures { IsWriter part events.now at result }
{
    match part {
        Part::Inputs(kind) => Writer::Input(last_input(events, kind, at)),
        Part::Register(_, _) => Writer::Instruction,
        Part::Word(_, _) => Writer::Instruction,
        Part::Leds => Writer::Instruction,
        Part::Stop => Writer::Instruction,
    }
}

/// Returns the index of the last input of a kind that has a count.
fn last_input(events: &[Event], kind: u8, at: u64) -> usize
    requires order { AreOrdered events.now }
    requires below { at < 2 ^ 64 - 1 }
    requires there { HasInput kind events.now at }
    ensures { IsLastInput kind events.now at result }
{
    let end = first_from(events, at + 1);
    for back in 0..end {
        let index = end - 1 - back;
        let event = events[index];
        if event.count == at && event.input.kind() == kind {
            return index;
        }
    }
    0
}
