//! What the instructions of a past do: a record for each count of a range, as a trace shows it.
//!
//! A trace keeps nothing for a later one: the records depend on the run and on the question alone. If its budget is spent, the caller
//! asks again about the rest of the range.
ghost use Rattle.std.specs.Prelude.{◌≡◌, ◌<◌, ◌≤◌, [], IfOk};
ghost use Rattle.oberon_past.specs.Past.{IsLonger};
ghost use Rattle.oberon_past.specs.Run.{state_at};
ghost use Rattle.oberon_past.specs.Trace.{AdvancesRecords, AreRecords, IsRecorded};

use crate::past::Past;
use crate::steps::Steps;
use crate::traced::{Record, Recorded, Records};
use risc_machine::Machine;
use risc_model::{Inputs, first_from};
use risc_search::{inputs_after, step_with_effect};
use std::alloc::{AllocError, Global};

impl Past {
    /// Returns what the instructions from the count `from` up to, but not including, `to` do, a record for each count, also if the
    /// machine is stopped there; or the first `room` records.
    ///
    /// After `More`, or a full list, ask again with `next` in place of `from`. Each `More` has added a keyframe or has records, so
    /// asking again ends.
    ///
    /// It does `budget` instructions to add keyframes up to `from`, and returns at most `budget` records; beside these it does at most
    /// two spacings of instructions. If memory runs out, keyframes may have been added.
    pub fn records(
        &mut self,
        alloc: Global,
        from: u64,
        to: u64,
        room: usize,
        budget: Steps,
    ) -> Result<Recorded, AllocError>
        // They are the records of the one run.
        ensures recorded { IfOk result (IsRecorded self.old.run self.old.end from to room) }
        // The past is of the same run, with keyframes added.
        ensures longer { IsLonger self.old self.new }
        // Asking again ends.
        ensures advances { IfOk result (AdvancesRecords self.old self.new from) }
    {
        if let Some(fault) = self.out_of_range(from, to) {
            return Ok(Recorded::OutOfRange(fault));
        }
        let wanted = (to - from).min(room as u64);
        if wanted == 0 {
            return Ok(Recorded::Done(no_records(alloc, from)));
        }
        if !self.approach(alloc, from, budget)? {
            return Ok(Recorded::More(no_records(alloc, from)));
        }
        let count = wanted.min(budget.count);
        let records = self.records_between(alloc, from, from + count)?;
        if count < wanted {
            return Ok(Recorded::More(records));
        }
        Ok(Recorded::Done(records))
    }

    /// Returns the records of all counts from `from` up to, but not including, `to`.
    fn records_between(&self, alloc: Global, from: u64, to: u64) -> Result<Records, AllocError>
        requires start { self.now.run.start ≤ from }
        requires forward { from ≤ to }
        ensures records { IfOk result (AreRecords self.now.run from) }
        ensures next { IfOk result (λ records. records.next ≡ to) }
    {
        let mut machine = self.machine(alloc, from)?;
        record_steps(alloc, &mut machine, &self.inputs, from, to)
    }
}

/// Does the steps of a machine from the count `from` up to the count `to`, and returns their records.
fn record_steps(
    alloc: Global,
    machine: &mut Machine<'_>,
    inputs: &Inputs,
    from: u64,
    to: u64,
) -> Result<Records, AllocError>
    requires forward { from ≤ to }
    ensures records { IfOk result (AreRecords (record { start = from; first = machine.old.state; inputs = inputs.now }) from) }
    ensures next { IfOk result (λ records. records.next ≡ to) }
{
    let events = inputs.events();
    let mut list = Vec::new(alloc);
    let mut next = first_from(events, from);
    for at in from..to {
        let end = inputs_after(events, next, at);
        let cpu = *machine.cpu();
        let devices = machine.devices().copy();
        let effect = step_with_effect(alloc, machine, inputs, at, next, end)?;
        list.push(Record {
            count: at,
            cpu,
            devices,
            effect,
        })?;
        next = end;
    }
    Ok(Records { list, next: to })
}

/// Returns an empty list of records. It allocates nothing.
fn no_records(alloc: Global, next: u64) -> Records
    ensures list { result.list.items ≡ [] }
    ensures next { result.next ≡ next }
{
    Records {
        list: Vec::new(alloc),
        next,
    }
}
