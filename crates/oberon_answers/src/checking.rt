//! The check of a recording without threads: its segments are replayed one after another, up to the first that fails.
ghost use Rattle.std.specs.Prelude.{◌≡◌, ◌+◌, ◌<◌, IfOk, IsSome, IsTrue, OnOk, length};
ghost use Rattle.oberon_format.specs.Recording.{last_of};
ghost use Rattle.oberon_check.specs.Collecting.{IsCollectFault, part_at};
ghost use Rattle.oberon_check.specs.Headline.{IsLineOf};
ghost use Rattle.oberon_check.specs.HeadlineWithDisk.{IsLineIn};
ghost use Rattle.oberon_check.specs.Verdict.{IsVerdict};
ghost use Rattle.oberon_check.specs.declared.collector.CollectFault.{CollectFault};
ghost use Rattle.oberon_answers.specs.inner.Answering.{IsVerdictAnswer};
ghost use Rattle.oberon_answers.specs.inner.Replaying.{AreFirst};

use crate::answer::{Answer, refused};
use crate::lengths::verdict_fits;
use oberon_check::{SegmentVerdict, Verdict, Versions, collect, replay_segment};
use oberon_format::{Fault, Recording};
use std::alloc::{AllocError, Global};

/// Returns the line and the status of the check of these bytes: those of `oberon_check::check_bytes`. The line has fewer than 256
/// bytes.
pub fn check(alloc: Global, bytes: &[u8]) -> Result<Answer, AllocError>
    ensures line { IfOk result (λ answer. IsLineOf bytes.now answer.bytes.items answer.status) }
    ensures short { IfOk result (λ answer. length answer.bytes.items < 256) }
{
    check_in(alloc, Versions::WithoutDisk, bytes)
}

/// Returns the line and the status of the check of these bytes in one of these versions: those of `oberon_check::check_bytes_in`.
pub fn check_in(alloc: Global, versions: Versions, bytes: &[u8]) -> Result<Answer, AllocError>
    ensures line { IfOk result (λ answer. IsLineIn versions bytes.now answer.bytes.items answer.status) }
    ensures short { IfOk result (λ answer. length answer.bytes.items < 256) }
{
    match versions.read(alloc, bytes) {
        Ok(r) => answer_of(alloc, &r),
        Err(Fault::Memory) => Err(AllocError),
        Err(fault) => refused(alloc, &fault),
    }
}

/// Returns the line and the status of the verdict on a recording.
fn answer_of(alloc: Global, r: &Recording) -> Result<Answer, AllocError>
    ensures { IfOk result (λ answer. IsVerdictAnswer r.now answer.bytes.items answer.status) }
{
    let verdict = verdict_of(alloc, r)?;
    verdict_fits(&verdict);
    Ok(Answer {
        bytes: verdict.line(alloc)?,
        status: verdict.status(),
    })
}

/// Returns the verdict on a recording.
fn verdict_of(alloc: Global, r: &Recording) -> Result<Verdict, AllocError>
    ensures { IfOk result (IsVerdict r.now) }
{
    let verdicts = first_verdicts(alloc, r)?;
    match collect(r, &verdicts) {
        Ok(verdict) => Ok(verdict),
        Err(_) => unreachable!(),
    }
}

/// Returns the verdicts of the segments in order, up to the first that fails. They suffice for a verdict on the recording.
fn first_verdicts(alloc: Global, r: &Recording) -> Result<Vec<SegmentVerdict>, AllocError>
    ensures first { IfOk result (λ verdicts. AreFirst r.now verdicts.items) }
    ensures whole { IfOk result (λ verdicts. (fault : CollectFault) → ¬ (IsCollectFault r.now verdicts.items fault)) }
{
    let mut verdicts = Vec::new(alloc);
    for segment in 0..r.count() - 1 {
        if replay_into(alloc, r, segment, &mut verdicts)? {
            return Ok(verdicts);
        }
    }
    Ok(verdicts)
}

/// Replays a segment, adds its verdict, and reports whether it failed.
#[tactic(auto, using(crate::proofs::FirstLemmas::first_more, crate::proofs::FirstLemmas::part_last))]
fn replay_into(
    alloc: Global,
    r: &Recording,
    segment: u32,
    verdicts: &mut Vec<SegmentVerdict>,
) -> Result<bool, AllocError>
    requires segment { segment < last_of r.now }
    requires before { AreFirst r.now verdicts.old.items }
    requires next { length verdicts.old.items ≡ segment }
    ensures first { OnOk result (AreFirst r.now verdicts.new.items) }
    ensures more { OnOk result (length verdicts.new.items ≡ segment + 1) }
    ensures failed { IfOk result (λ failed. IsTrue failed → IsSome (part_at verdicts.new.items segment)) }
{
    let verdict = replay_segment(alloc, r, segment)?;
    let failed = verdict.part().is_some();
    verdicts.push(verdict)?;
    Ok(failed)
}
