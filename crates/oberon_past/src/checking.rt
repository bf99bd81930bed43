//! The check of a recording by the past of its run: whether its checkpoints are what the run reaches.
//!
//! A check keeps nothing for a later one, and adds keyframes as any question does. If its budget is spent, the caller asks again
//! with the progress that it returned. The states of checkpoints come from keyframes, but the bytes sent have to be run for, so the
//! progress says how many of them are compared.
ghost use Rattle.std.specs.Prelude.{◌≡◌, ◌⊎◌, ◌↔◌, ◌-◌, ◌<◌, ◌≤◌, IfErr, IfNone, IfOk, IfSome, IsTrue, None, OnErr, Some, length};
ghost use Rattle.risc_model.specs.InputOrder.{AreOrdered};
ghost use Rattle.oberon_format.specs.Defined.{claimed, defined};
ghost use Rattle.oberon_format.specs.Defined.{state_at as state_in};
ghost use Rattle.oberon_format.specs.Recording.{count_at};
ghost use Rattle.oberon_session.specs.Extended.{last_count};
ghost use Rattle.oberon_check.specs.Difference.{IsDifference};
ghost use Rattle.oberon_check.specs.Verdict.{IsVerdict};
ghost use Rattle.oberon_past.specs.Check.{AreTrueBefore, IsCheckFault, IsChecked, IsProgress, IsRunOf, IsSentUpTo, IsTrueProgress, LeavesChecked, check_start};
ghost use Rattle.oberon_past.specs.Live.{inputs_before};
ghost use Rattle.oberon_past.specs.Past.{IsLonger};
ghost use Rattle.oberon_past.specs.inner.Checking.{GoesOn, HasCome, IsAnswered, IsAt, IsPassed, IsSaid};

use crate::checked::{CheckFault, CheckProgress, Checked};
use crate::past::Past;
use crate::running::run_with_room;
use crate::steps::Steps;
use oberon_check::{Part, Verdict, claim_difference};
use oberon_format::Recording;
use risc_machine::Machine;
use risc_model::{Event, first_from};
use std::alloc::{AllocError, Global};

impl Past {
    /// Checks the checkpoints of a recording of this past's run, in order: whether each is the state and the bytes sent that the
    /// run gives. The verdict is that of one uninterrupted replay.
    ///
    /// The recording may be the one that was opened, or any other of the same run: the call tests its initial state and its inputs
    /// before its last checkpoint. It begins with checkpoint 1; after `More(progress)`, ask again with the progress. That this is
    /// true, the call does not test. Each `More` has added a keyframe or has come further, so asking again ends.
    ///
    /// It does `budget` instructions to add keyframes up to the progress, and as many to check from there on; beside these, at most
    /// two spacings. If memory runs out, keyframes may have been added. It holds the bytes sent in a stretch, at most as many as a
    /// checkpoint claims.
    pub fn check(
        &mut self,
        alloc: Global,
        recording: &Recording,
        progress: Option<CheckProgress>,
        budget: Steps,
    ) -> Result<Checked, AllocError>
        // It is the verdict on the recording, or another progress that is true, if the first one is.
        ensures checked { IfOk result (IsChecked self.old recording.now progress) }
        // Asking again ends.
        ensures advances { IfOk result (LeavesChecked self.old self.new progress) }
        // Only a question about counts of the past can fail.
        ensures inside { OnErr result ((last_count recording.now ≤ self.old.end) × IfSome progress (IsProgress recording.now)) }
        // The past is of the same run, with keyframes added.
        ensures longer { IsLonger self.old self.new }
    {
        if recording.checkpoint(recording.count() - 1).count > self.end {
            return Ok(Checked::Refused(CheckFault::Later));
        }
        if !is_progress(recording, progress) {
            return Ok(Checked::Refused(CheckFault::Progress));
        }
        if !self.is_run_of(alloc, recording)? {
            return Ok(Checked::Refused(CheckFault::OtherRun));
        }
        if recording.count() == 1 {
            return Ok(Checked::Done(accepted(recording)));
        }
        self.check_from(alloc, recording, check_start(progress), budget)
    }

    /// Reports whether a recording is one of this past's run.
    fn is_run_of(&self, alloc: Global, recording: &Recording) -> Result<bool, AllocError>
        ensures { IfOk result (λ is. IsTrue is ↔ IsRunOf recording.now self.now.run) }
    {
        if self.extent().first != 0 {
            return Ok(false);
        }
        let end = recording.checkpoint(recording.count() - 1).count;
        let machine = self.machine(alloc, 0)?;
        if claim_difference(&machine, true, recording, 0).is_some() {
            return Ok(false);
        }
        Ok(same_before(recording.inputs().events(), self.inputs.events(), end))
    }

    /// Checks the checkpoints from a progress on.
    fn check_from(
        &mut self,
        alloc: Global,
        recording: &Recording,
        from: CheckProgress,
        budget: Steps,
    ) -> Result<Checked, AllocError>
        requires run { IsRunOf recording.now self.old.run }
        requires inside { last_count recording.now ≤ self.old.end }
        requires progress { IsProgress recording.now from }
        ensures checked { IsTrueProgress recording.now from → IfOk result (IsSaid recording.now) }
        ensures answered { IfOk result (IsAnswered recording.now) }
        ensures advances { IfOk result (LeavesChecked self.old self.new (Some from)) }
        ensures longer { IsLonger self.old self.new }
    {
        // The contract of `count` states that the recording is lawful, so no checkpoint is after the last one.
        let _count = recording.count();
        if !self.approach(alloc, from.count, budget)? {
            return Ok(Checked::More(from));
        }
        let mut machine = self.machine(alloc, from.count)?;
        check_on(alloc, &mut machine, recording, from, budget)
    }
}

/// Returns where a check begins.
fn check_start(progress: Option<CheckProgress>) -> CheckProgress
    ensures { result ≡ check_start progress }
{
    match progress {
        Some(progress) => progress,
        None => CheckProgress {
            checkpoint: 1,
            count: 0,
            sent: Some(0),
        },
    }
}

/// Reports whether a progress is one of a recording, if there is one.
fn is_progress(recording: &Recording, progress: Option<CheckProgress>) -> bool
    ensures { IsTrue result ↔ IfSome progress (IsProgress recording.now) }
{
    match progress {
        Some(progress) => is_progress_of(recording, progress),
        None => true,
    }
}

/// Reports whether a progress is one of a recording.
fn is_progress_of(recording: &Recording, progress: CheckProgress) -> bool
    ensures { IsTrue result ↔ IsProgress recording.now progress }
{
    let k = progress.checkpoint;
    if k == 0 || k >= recording.count() {
        return false;
    }
    let next = recording.checkpoint(k);
    if progress.count < recording.checkpoint(k - 1).count || progress.count > next.count {
        return false;
    }
    match progress.sent {
        Some(sent) => sent <= next.sent.len(),
        None => true,
    }
}

/// Reports whether two lists have the same inputs before a count.
fn same_before(events: &[Event], others: &[Event], count: u64) -> bool
    requires events { AreOrdered events.now }
    requires others { AreOrdered others.now }
    ensures { IsTrue result ↔ (inputs_before count events.now ≡ inputs_before count others.now) }
{
    let first = &events[..first_from(events, count)];
    let second = &others[..first_from(others, count)];
    first == second
}

/// Returns the verdict that all checkpoints are true.
fn accepted(recording: &Recording) -> Verdict
    ensures { AreTrueBefore recording.now (length recording.now.checkpoints) → IsVerdict recording.now result }
{
    let last = recording.count() - 1;
    Verdict::Accepted {
        checkpoints: last,
        steps: recording.checkpoint(last).count,
    }
}

/// Checks the checkpoints from a progress on, by a machine that has come to its count, until the budget is spent or the bytes sent
/// turn out to be others. Then the machine is not where the run is.
fn check_on(
    alloc: Global,
    machine: &mut Machine<'_>,
    recording: &Recording,
    from: CheckProgress,
    budget: Steps,
) -> Result<Checked, AllocError>
    requires progress { IsProgress recording.now from }
    ensures checked { IsAt recording.now from machine.old.state → IfOk result (IsSaid recording.now) }
    ensures further { IfOk result (GoesOn recording.now from) }
{
    let mut at = from;
    let mut left = budget.count;
    while left > 0 {
        let to = piece_end(recording, at, left);
        let checked = check_piece(alloc, machine, recording, at, to)?;
        let Checked::More(next) = checked else {
            return Ok(checked);
        };
        if next.sent.is_none() {
            return Ok(checked);
        }
        left = left.saturating_sub((to - at.count).max(1));
        at = next;
    }
    Ok(Checked::More(at))
}

/// Returns the count up to which to run now: within the budget, and no further than to the next checkpoint.
fn piece_end(recording: &Recording, at: CheckProgress, left: u64) -> u64
    requires progress { IsProgress recording.now at }
    requires some { 0 < left }
    ensures range { (at.count ≤ result) × (result ≤ count_at recording.now at.checkpoint) }
    ensures some { (at.count < result) ⊎ (result ≡ count_at recording.now at.checkpoint) }
{
    let next = recording.checkpoint(at.checkpoint).count;
    at.count + left.min(next - at.count)
}

/// Checks one piece of the run: from a progress up to a count, and the checkpoint that is there.
///
/// If the bytes sent are not those that the checkpoint claims, the progress that says so is of the first count.
fn check_piece(
    alloc: Global,
    machine: &mut Machine<'_>,
    recording: &Recording,
    at: CheckProgress,
    to: u64,
) -> Result<Checked, AllocError>
    requires progress { IsProgress recording.now at }
    requires range { (at.count ≤ to) × (to ≤ count_at recording.now at.checkpoint) }
    requires some { (at.count < to) ⊎ (to ≡ count_at recording.now at.checkpoint) }
    ensures checked { IsAt recording.now at machine.old.state → IfOk result (IsSaid recording.now) }
    ensures further { IfOk result (GoesOn recording.now at) }
    ensures come { IsAt recording.now at machine.old.state → IfOk result (HasCome recording.now machine.new.state) }
{
    let Some(sent) = at.sent else {
        return run_out(machine, recording, at, to);
    };
    let rest = &recording.checkpoint(at.checkpoint).sent[sent..];
    let ran = run_with_room(alloc, machine, recording.inputs(), at.count, to, rest.len())?;
    if ran.end < to || !rest.starts_with(&ran.sent) {
        return Ok(Checked::More(CheckProgress { sent: None, ..at }));
    }
    let reached = CheckProgress {
        count: to,
        sent: Some(sent + ran.sent.len()),
        ..at
    };
    Ok(passed(machine, recording, reached))
}

/// Runs a machine up to a count, where the bytes sent are known not to be those that the checkpoint claims.
fn run_out(
    machine: &mut Machine<'_>,
    recording: &Recording,
    at: CheckProgress,
    to: u64,
) -> Result<Checked, AllocError>
    requires progress { IsProgress recording.now at }
    requires others { at.sent ≡ None }
    requires range { (at.count ≤ to) × (to ≤ count_at recording.now at.checkpoint) }
    requires some { (at.count < to) ⊎ (to ≡ count_at recording.now at.checkpoint) }
    ensures checked { IsAt recording.now at machine.old.state → IfOk result (IsSaid recording.now) }
    ensures further { IfOk result (GoesOn recording.now at) }
    ensures come { IsAt recording.now at machine.old.state → IfOk result (HasCome recording.now machine.new.state) }
{
    let Ok(_) = machine.run_matching(recording.inputs(), at.count, to, &[]) else {
        return Err(AllocError);
    };
    Ok(passed(machine, recording, CheckProgress { count: to, ..at }))
}

/// Returns what is known when a machine has come to the count of a progress: at a checkpoint, that it is true, or the verdict.
fn passed(machine: &Machine<'_>, recording: &Recording, at: CheckProgress) -> Checked
    requires progress { IsProgress recording.now at }
    ensures checked { IsAt recording.now at machine.now.state → IsSaid recording.now result }
    ensures passed { IsPassed recording.now at result }
{
    let k = at.checkpoint;
    let count = recording.checkpoint(k).count;
    if at.count < count {
        return Checked::More(at);
    }
    if let Some(part) = part_at(machine, recording, at) {
        return Checked::Done(Verdict::FalseAt {
            checkpoint: k,
            count,
            part,
        });
    }
    if k + 1 == recording.count() {
        return Checked::Done(accepted(recording));
    }
    Checked::More(CheckProgress {
        checkpoint: k + 1,
        count,
        sent: Some(0),
    })
}

/// Returns the first part in which a checkpoint differs from a machine that has come to its count.
fn part_at(machine: &Machine<'_>, recording: &Recording, at: CheckProgress) -> Option<Part>
    requires progress { IsProgress recording.now at }
    requires reached { at.count ≡ count_at recording.now at.checkpoint }
    ensures { IsAt recording.now at machine.now.state
        → IsDifference (claimed recording.now at.checkpoint) (defined recording.now at.checkpoint) result }
{
    claim_difference(machine, is_whole(recording, at), recording, at.checkpoint)
}

/// Reports whether the bytes sent up to a checkpoint are those that it claims.
fn is_whole(recording: &Recording, at: CheckProgress) -> bool
    requires progress { IsProgress recording.now at }
    requires reached { at.count ≡ count_at recording.now at.checkpoint }
    ensures { IsTrueProgress recording.now at
        → (IsTrue result ↔ ((defined recording.now at.checkpoint).sent ≡ (claimed recording.now at.checkpoint).sent)) }
{
    let Some(sent) = at.sent else {
        return false;
    };
    sent == recording.checkpoint(at.checkpoint).sent.len()
}
