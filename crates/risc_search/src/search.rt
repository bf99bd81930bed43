//! The search: a machine runs at full speed past the instructions that concern no condition, and each step of the others is tested.
ghost use Rattle.std.specs.Prelude.{◌≡◌, ◌≤◌, ◌<◌, ◌+◌, ◌-◌, ◌^◌, true, None, IfOk, OnErr, OnOk, ◌⊎◌, length, max};
ghost use Rattle.risc_machine.specs.Allocation.{Keeps, MayFail};
ghost use Rattle.risc_model.specs.Exec.{exec};
ghost use Rattle.risc_model.specs.Replay.{feed, run_of};
ghost use Rattle.risc_search.specs.Hits.{AreFirstHits, HasHit};
ghost use Rattle.risc_search.specs.Search.{IsFirst, IsLast, count_after};
ghost use Rattle.risc_search.specs.inner.Concerns.{CoverAll};
ghost use Rattle.risc_search.specs.inner.Due.{IsQuiet};
ghost use Rattle.risc_search.specs.inner.Idle.{HasPassed};
ghost use Rattle.risc_search.specs.inner.Observed.{IsAnswerFrom, IsBefore, IsSilentFrom};
ghost use Rattle.risc_search.specs.inner.Progress.{IsInRange};

use crate::before::Before;
use crate::concerns::Concerns;
use crate::condition::Clause;
use crate::due::{due_after, inputs_at, next_due};
use crate::hit::{Hit, Hits};
use crate::idle::Passed;
use crate::meeting::{Armed, arm, first_met};
use crate::pace::Pace;
use risc_machine::Machine;
use risc_model::Inputs;
use std::alloc::{AllocError, Global};

/// The most conditions that one search takes.
pub const MAX_CONDITIONS: usize = 64;

/// Where a search is.
#[derive(Clone, Copy)]
struct Progress {
    /// The count of its machine.
    at: u64,
    /// The count of the next input, or the end of the range if none comes before it.
    due: u64,
    pace: Pace,
}

/// What a search takes.
#[derive(Clone, Copy)]
pub(crate) struct Search<'s> {
    alloc: Global,
    pub(crate) inputs: &'s Inputs,
    pub(crate) conditions: &'s [Clause],
    concerns: Concerns,
}

/// The result of a step.
#[derive(Clone, Copy)]
pub(crate) struct Stepped {
    /// The index of the first condition that holds at it, if any does.
    pub(crate) met: Option<usize>,
    /// Whether it sends nothing.
    pub(crate) is_silent: bool,
}

impl<'s> Search<'s> {
    fn new(alloc: Global, inputs: &'s Inputs, conditions: &'s [Clause]) -> Search<'s>
        ensures inputs { result.inputs.now ≡ inputs.now }
        ensures conditions { result.conditions.now ≡ conditions.now }
        ensures concerns { CoverAll result.concerns conditions.now }
    {
        Search {
            alloc,
            inputs,
            conditions,
            concerns: Concerns::of(conditions),
        }
    }

    /// Returns where a search is at the first count of its range.
    fn begin(&self, from: u64, to: u64) -> Progress
        requires { from ≤ to }
        ensures at { result.at ≡ from }
        ensures range { IsInRange self.now.inputs.now to result }
    {
        Progress {
            at: from,
            due: next_due(self.inputs.events(), from, to),
            pace: Pace::new(from),
        }
    }

    /// Does the step of a count that has no inputs, of which `before` is known.
    #[inline(always)]
    pub(crate) fn step_after(
        &self,
        before: &Before,
        machine: &mut Machine<'_>,
        at: u64,
        armed: &mut [Armed],
    ) -> Result<Stepped, AllocError>
        requires before { IsBefore before.now machine.old.state }
        requires quiet { IsQuiet self.now.inputs.now at (at + 1) }
        requires armed { length self.now.conditions.now ≤ length armed.old }
        ensures armed { length armed.new ≡ length armed.old }
        ensures state { OnOk result (machine.new.state ≡ (exec (feed self.now.inputs.now at machine.old.state)).0) }
        ensures met { IfOk result (λ step. IsAnswerFrom self.now.conditions.now self.now.inputs.now at machine.old.state step.met) }
        ensures silent { IfOk result (λ step. step.is_silent ≡ true → IsSilentFrom self.now.inputs.now at machine.old.state) }
        ensures cause { OnErr result (MayFail machine.new) }
        ensures kept { Keeps machine.old machine.new }
    {
        let any = arm(self.conditions, before, machine, &[], armed);
        let sent = machine.step()?;
        let is_silent = sent.is_none();
        if !any {
            return Ok(Stepped {
                met: None,
                is_silent,
            });
        }
        let stored = before.stored(machine.memory());
        let met = first_met(self.conditions, armed, machine.cpu(), stored, sent);
        Ok(Stepped { met, is_silent })
    }

    /// Does the step of a count that has no inputs. Returns the index of the first condition that holds at it.
    #[inline(always)]
    fn step_quietly(
        &self,
        machine: &mut Machine<'_>,
        at: u64,
        armed: &mut [Armed],
    ) -> Result<Option<usize>, AllocError>
        requires quiet { IsQuiet self.now.inputs.now at (at + 1) }
        requires armed { length self.now.conditions.now ≤ length armed.old }
        ensures armed { length armed.new ≡ length armed.old }
        ensures state { OnOk result (machine.new.state ≡ (exec (feed self.now.inputs.now at machine.old.state)).0) }
        ensures met { IfOk result (IsAnswerFrom self.now.conditions.now self.now.inputs.now at machine.old.state) }
        ensures cause { OnErr result (MayFail machine.new) }
        ensures kept { Keeps machine.old machine.new }
    {
        let before = Before::of(machine);
        let step = self.step_after(&before, machine, at, armed)?;
        Ok(step.met)
    }

    /// Does the step of a count that may have inputs. Returns the index of the first condition that holds at it.
    #[cold]
    #[inline(never)]
    fn step_with_inputs(
        &self,
        machine: &mut Machine<'_>,
        at: u64,
        armed: &mut [Armed],
    ) -> Result<Option<usize>, AllocError>
        requires below { at < 2 ^ 64 - 1 }
        requires armed { length self.now.conditions.now ≤ length armed.old }
        ensures armed { length armed.new ≡ length armed.old }
        ensures state { OnOk result (machine.new.state ≡ (exec (feed self.now.inputs.now at machine.old.state)).0) }
        ensures met { IfOk result (IsAnswerFrom self.now.conditions.now self.now.inputs.now at machine.old.state) }
        ensures cause { OnErr result (MayFail machine.new) }
        ensures kept { Keeps machine.old machine.new }
    {
        let before = Before::of(machine);
        let taken = inputs_at(self.inputs.events(), at);
        let _any = arm(self.conditions, &before, machine, taken, armed);
        let mut sent = Vec::new(self.alloc);
        let Ok(()) = machine.run(self.inputs, at, at + 1, &mut sent) else {
            return Err(AllocError);
        };
        let stored = before.stored(machine.memory());
        let sent = sent.first().copied();
        Ok(first_met(self.conditions, armed, machine.cpu(), stored, sent))
    }

    /// Goes on from a count that is before that of the next input, or at it: by the instructions that concern no condition and one
    /// that may, or by more if the machine is in an idle loop.
    #[inline(always)]
    fn advance(
        &self,
        machine: &mut Machine<'_>,
        at: u64,
        due: u64,
        pace: &mut Pace,
        armed: &mut [Armed],
    ) -> Result<Passed, AllocError>
        requires quiet { IsQuiet self.now.inputs.now at due }
        requires due { at ≤ due }
        requires below { at < 2 ^ 64 - 1 }
        requires concerns { CoverAll self.now.concerns self.now.conditions.now }
        requires armed { length self.now.conditions.now ≤ length armed.old }
        ensures armed { length armed.new ≡ length armed.old }
        ensures further { IfOk result (λ passed. at < passed.at) }
        ensures inside { IfOk result (λ passed. passed.at ≤ max due (at + 1)) }
        ensures state { IfOk result (λ p. machine.new.state ≡ run_of self.now.inputs.now at (p.at - at) machine.old.state) }
        ensures passed { IfOk result (HasPassed self.now.conditions.now self.now.inputs.now at machine.old.state) }
        ensures cause { OnErr result (MayFail machine.new) }
        ensures kept { Keeps machine.old machine.new }
    {
        if at == due {
            let met = self.step_with_inputs(machine, at, armed)?;
            return Ok(Passed {
                at: at + 1,
                met,
                period: 0,
            });
        }
        if pace.is_due(at) {
            let passed = self.look_for_loop(machine, at, due, pace.limit(), armed)?;
            pace.looked(passed.at, passed.period);
            return Ok(passed);
        }
        let room = pace.room(at, due);
        let steps = machine.run_unwatched(&self.concerns, room);
        if steps == room {
            return Ok(Passed {
                at: at + steps,
                met: None,
                period: 0,
            });
        }
        let met = self.step_quietly(machine, at + steps, armed)?;
        Ok(Passed {
            at: at + steps + 1,
            met,
            period: 0,
        })
    }

    /// Goes on to the next count at which a condition holds, and returns it with the condition. The machine comes to the count after
    /// it; or to the end of the range, if there is none.
    fn next(
        &self,
        machine: &mut Machine<'_>,
        progress: &mut Progress,
        to: u64,
        armed: &mut [Armed],
    ) -> Result<Option<Hit>, AllocError>
        requires progress { IsInRange self.now.inputs.now to progress.old }
        requires concerns { CoverAll self.now.concerns self.now.conditions.now }
        requires armed { length self.now.conditions.now ≤ length armed.old }
        ensures armed { length armed.new ≡ length armed.old }
        ensures first { IfOk result (IsFirst self.now.conditions.now self.now.inputs.now progress.old.at to machine.old.state) }
        ensures at { IfOk result (λ found. progress.new.at ≡ count_after to found) }
        ensures progress { OnOk result (IsInRange self.now.inputs.now to progress.new) }
        ensures state { OnOk result (machine.new.state ≡
            run_of self.now.inputs.now progress.old.at (progress.new.at - progress.old.at) machine.old.state) }
        ensures cause { OnErr result (MayFail machine.new) }
        ensures kept { Keeps machine.old machine.new }
    {
        let events = self.inputs.events();
        let Progress {
            mut at,
            mut due,
            mut pace,
        } = *progress;
        while at < to && machine.cpu().stop == 0 {
            let passed = self.advance(machine, at, due, &mut pace, armed)?;
            due = due_after(events, passed.at, due, to);
            at = passed.at;
            if let Some(condition) = passed.met {
                *progress = Progress { at, due, pace };
                return Ok(Some(Hit {
                    count: at - 1,
                    condition,
                }));
            }
        }
        *progress = Progress {
            at: to,
            due: to,
            pace,
        };
        Ok(None)
    }
}

/// Finds the first count, from `from` up to but not including `to`, at which a condition of the list holds, in a run of the machine
/// that begins at the count `from`. Conditions that are joined are one, and have the index of the first of them.
///
/// Afterwards the machine is in the state of that run right after the instruction of the count that is returned, or in that of the
/// count `to` if there is none. Fails only if memory runs out.
pub fn find_first(
    alloc: Global,
    machine: &mut Machine<'_>,
    inputs: &Inputs,
    from: u64,
    to: u64,
    conditions: &[Clause],
) -> Result<Option<Hit>, AllocError>
    requires forward { from ≤ to }
    requires few { length conditions.now ≤ MAX_CONDITIONS }
    ensures first { IfOk result (IsFirst conditions.now inputs.now from to machine.old.state) }
    ensures state { IfOk result (λ found.
        machine.new.state ≡ run_of inputs.now from (count_after to found - from) machine.old.state) }
    ensures cause { OnErr result (MayFail machine.new) }
    ensures kept { Keeps machine.old machine.new }
{
    let search = Search::new(alloc, inputs, conditions);
    let mut progress = search.begin(from, to);
    let mut armed = [Armed::NOT; MAX_CONDITIONS];
    search.next(machine, &mut progress, to, &mut armed)
}

/// Finds the last count, from `from` up to but not including `to`, at which a condition of the list holds, in a run of the machine
/// that begins at the count `from`. Conditions that are joined are one, as for `find_first`.
///
/// Afterwards the machine is in the state of that run at the count `to`. Fails only if memory runs out.
pub fn find_last(
    alloc: Global,
    machine: &mut Machine<'_>,
    inputs: &Inputs,
    from: u64,
    to: u64,
    conditions: &[Clause],
) -> Result<Option<Hit>, AllocError>
    requires forward { from ≤ to }
    requires few { length conditions.now ≤ MAX_CONDITIONS }
    ensures last { IfOk result (IsLast conditions.now inputs.now from to machine.old.state) }
    ensures state { OnOk result (machine.new.state ≡ run_of inputs.now from (to - from) machine.old.state) }
    ensures cause { OnErr result (MayFail machine.new) }
    ensures kept { Keeps machine.old machine.new }
{
    let search = Search::new(alloc, inputs, conditions);
    let mut progress = search.begin(from, to);
    let mut armed = [Armed::NOT; MAX_CONDITIONS];
    let mut found = None;
    while progress.at < to {
        let Some(hit) = search.next(machine, &mut progress, to, &mut armed)? else {
            return Ok(found);
        };
        found = Some(hit);
    }
    Ok(found)
}

/// Finds all counts, from `from` up to but not including `to`, at which a condition of the list holds, in their order, in a run of the
/// machine that begins at the count `from`; or the first `room` of them. Conditions that are joined are one, as for `find_first`.
///
/// Afterwards the machine is in the state of that run at the count `next` of what is returned: `to`, or the count after the last hit
/// if there is no more room. A search that begins there finds the hits after these. Fails only if memory runs out, for the machine or for the
/// list of hits.
pub fn find_all(
    alloc: Global,
    machine: &mut Machine<'_>,
    inputs: &Inputs,
    from: u64,
    to: u64,
    conditions: &[Clause],
    room: usize,
) -> Result<Hits, AllocError>
    requires forward { from ≤ to }
    requires few { length conditions.now ≤ MAX_CONDITIONS }
    requires room { 0 < room }
    ensures hits { IfOk result (λ hits.
        AreFirstHits conditions.now inputs.now from to machine.old.state room hits.list.items hits.next) }
    ensures state { IfOk result (λ hits. machine.new.state ≡ run_of inputs.now from (hits.next - from) machine.old.state) }
    ensures cause { OnErr result (MayFail machine.new ⊎ HasHit conditions.now inputs.now from to machine.old.state) }
    ensures kept { Keeps machine.old machine.new }
{
    let search = Search::new(alloc, inputs, conditions);
    let mut progress = search.begin(from, to);
    let mut armed = [Armed::NOT; MAX_CONDITIONS];
    let mut list = Vec::new(alloc);
    while progress.at < to && list.len() < room {
        if let Some(hit) = search.next(machine, &mut progress, to, &mut armed)? {
            list.push(hit)?;
        }
    }
    Ok(Hits {
        list,
        next: progress.at,
    })
}
