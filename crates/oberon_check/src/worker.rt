//! One worker's share: the jobs that it claims, and the verdicts of their segments.
//!
//! This module has the loop of a worker. The claim book is in `oberon_claims`, the verdict from all shares in `gathering`, and
//! the threads in `check`. Nothing here waits.
ghost use Rattle.std.specs.Prelude.{◌≡◌, ◌<◌, ◌≤◌, ◌*◌, IfOk, IsTrue, OnOk};
ghost use Rattle.std.specs.Int.{div_ceil};
ghost use Rattle.oberon_claims.specs.Pass.{fresh_pass};
ghost use Rattle.oberon_format.specs.Recording.{last_of};
ghost use Rattle.oberon_check.specs.Work.{IsAfterShown};
ghost use Rattle.oberon_check.specs.inner.Progress.{AddsJob, AddsSeries, IsLooked};

use crate::gate::Gate;
use crate::replayer::Replayer;
use crate::segment::SegmentVerdict;
use oberon_claims::{Claims, Pass};
use oberon_format::Recording;
use std::alloc::{AllocError, Global};
use std::marker::Model;
use std::snapshot::Snapshot;

/// One worker's share: its pass, and the verdicts of the jobs that it took.
///
/// Its type ensures the following. The last claim of the pass was answered `None`. Each job that the pass took has the
/// verdicts of its segments in order, up to its end or its first failed segment; or it was skipped, has no verdict, and begins
/// after a value that the pass was shown. There are no other verdicts. The pass reported the failed segments. The book has as
/// many jobs as the recording has at this cut. Only contracts see the recording and the cut.
#[derive(Drop)]
pub struct Done {
    recording: Snapshot<Recording>,
    cut: u32,
    pass: Pass,
    verdicts: Vec<SegmentVerdict>,
}

impl Model for Done {
    ghost use Rattle.oberon_check.specs.Work.{DoneRecord, IsDone};
    ghost use Rattle.oberon_check.specs.inner.Progress.{done_record};

    ghost Value = { DoneRecord };

    ghost view = { λ d. done_record d.recording.value d.cut d.pass d.verdicts.items };

    ghost invariant = { λ d. IsDone (done_record d.recording.value d.cut d.pass d.verdicts.items) };
}

impl Done {
    ghost use Rattle.oberon_check.specs.Work.{IsDone};
    ghost use Rattle.oberon_check.specs.inner.Progress.{done_record};

    /// Returns the pass and the verdicts.
    pub(crate) fn into_parts(self) -> (Pass, Vec<SegmentVerdict>)
        ensures parts { done_record self.recording self.cut result.0 result.1.items ≡ self }
        ensures done { IsDone self }
    {
        let Done {
            recording: _,
            cut: _,
            pass,
            verdicts,
        } = self;
        (pass, verdicts)
    }

    /// Returns the verdicts of the jobs that the pass took, job by job in the order of the claims.
    pub fn verdicts(&self) -> &[SegmentVerdict]
        ensures verdicts { result.now ≡ self.now.verdicts }
        ensures done { IsDone self.now }
    {
        self.verdicts.as_slice()
    }
}

/// Replays the segments from `from` to `to - 1` in order, and appends their verdicts. It ends at the first segment that
/// fails, and reports it.
fn replay_series(
    alloc: Global,
    replayer: &mut Replayer<'_>,
    claims: &Claims,
    pass: &mut Pass,
    verdicts: &mut Vec<SegmentVerdict>,
    from: u32,
    to: u32,
) -> Result<(), AllocError>
    requires book { pass.old.book ≡ claims.now }
    requires range { (from < to) × (to ≤ last_of replayer.old) }
    ensures series { OnOk result (AddsSeries replayer.old from to pass.old pass.new verdicts.old.items verdicts.new.items) }
    ensures kept { replayer.new ≡ replayer.old }
{
    for segment in from..to {
        let verdict = replayer.replay(alloc, segment)?;
        let failed = verdict.part().is_some();
        verdicts.push(verdict)?;
        if failed {
            claims.tell(pass, segment);
            return Ok(());
        }
    }
    Ok(())
}

/// Looks, and returns whether a job that begins at segment `first` may be skipped: a reported segment is below it.
fn is_skipped(claims: &Claims, pass: &mut Pass, first: u32) -> bool
    requires { pass.old.book ≡ claims.now }
    ensures looked { IsLooked pass.old pass.new }
    ensures shown { IsTrue result → IsAfterShown pass.new.shown first }
{
    match claims.look(pass) {
        Some(shown) => shown < first,
        None => false,
    }
}

/// Does a job, or skips it if it begins after a segment that was reported as failed.
fn do_job(
    alloc: Global,
    replayer: &mut Replayer<'_>,
    claims: &Claims,
    pass: &mut Pass,
    verdicts: &mut Vec<SegmentVerdict>,
    cut: u32,
    job: u32,
) -> Result<(), AllocError>
    requires book { pass.old.book ≡ claims.now }
    requires cut { 1 ≤ cut }
    requires job { job * cut < last_of replayer.old }
    ensures job { OnOk result (AddsJob replayer.old cut job pass.old pass.new verdicts.old.items verdicts.new.items) }
    ensures kept { replayer.new ≡ replayer.old }
{
    let last = replayer.recording().count() - 1;
    let first = job * cut;
    if is_skipped(claims, pass, first) {
        return Ok(());
    }
    let end = if cut < last - first {
        first + cut
    } else {
        last
    };
    replay_series(alloc, replayer, claims, pass, verdicts, first, end)?;
    Ok(())
}

/// Does one worker's share: claims jobs until none is left, and calls the gate before each of them. It never waits.
///
/// A job is `cut` consecutive segments, the last one perhaps fewer: job j begins at segment `j * cut`. If memory runs out, the
/// pass is lost, and no verdict can be gathered from its book any more.
pub fn work<G: Gate>(
    alloc: Global,
    r: &Recording,
    claims: &Claims,
    mut pass: Pass,
    cut: u32,
    gate: &G,
) -> Result<Done, AllocError>
    requires cut { 1 ≤ cut }
    requires fresh { pass ≡ fresh_pass claims.now }
    requires jobs { claims.now.jobs ≡ div_ceil (last_of r.now) cut }
    ensures recording { IfOk result (λ d. d.recording ≡ r.now) }
    ensures cut { IfOk result (λ d. d.cut ≡ cut) }
    ensures book { IfOk result (λ d. d.pass.book ≡ claims.now) }
{
    let mut replayer = Replayer::new(r);
    let mut verdicts = Vec::new(alloc);
    while let Some(job) = claims.claim(&mut pass) {
        gate.before(job);
        do_job(
            alloc,
            &mut replayer,
            claims,
            &mut pass,
            &mut verdicts,
            cut,
            job,
        )?;
    }
    Ok(Done {
        recording: Snapshot::of(r),
        cut,
        pass,
        verdicts,
    })
}
