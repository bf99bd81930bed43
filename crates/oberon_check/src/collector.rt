//! The collector: makes the verdict on a recording from segment verdicts in any order.
//!
//! This module tallies segment verdicts, and rejects lists that have a verdict too many or too few. The replay of one segment
//! is in `segment`.
ghost use Rattle.std.specs.Prelude.{◌≡◌, ◌<◌, ◌≤◌, All, IfOk, IfErr, OnOk, length};
ghost use Rattle.oberon_format.specs.Recording.{IsLawfulWithDisk};
ghost use Rattle.oberon_check.specs.Verdict.{IsVerdict};
ghost use Rattle.oberon_check.specs.Segment.{IsTrueSegmentVerdict};
ghost use Rattle.oberon_check.specs.Collecting.{IsFirstDouble, IsCollectFault, collect_fault_number};
ghost use Rattle.oberon_check.specs.inner.Tally.{IsFirstUnmarked, IsTally, end_of, lesser_of};

use crate::part::Part;
use crate::segment::SegmentVerdict;
use crate::verdict::Verdict;
use oberon_format::{LAST_CHECKPOINT, Recording};
use thiserror::Error;

/// Why no verdict on the recording follows from a list of segment verdicts.
#[derive(Clone, Copy, Debug, PartialEq, Eq, Error)]
pub enum CollectFault {
    /// 1: this segment has two verdicts. It is the first whose second verdict occurs in the list.
    #[error("segment {0} has two verdicts")]
    Double(u32),
    /// 2: no segment has two verdicts, but this one has none. It is the least such segment below the least failed one, or of
    /// all segments if none failed.
    #[error("segment {0} has no verdict")]
    Missing(u32),
}

impl CollectFault {
    /// Returns the fault's number, 1 or 2.
    pub fn number(self) -> u8
        ensures { result ≡ collect_fault_number self }
    {
        match self {
            CollectFault::Double(_) => 1,
            CollectFault::Missing(_) => 2,
        }
    }
}

/// The largest number of segments: one up to each checkpoint but checkpoint 0.
const MAX_SEGMENTS: usize = LAST_CHECKPOINT as usize;

/// Which segments have a verdict, and the least failed segment with its part.
#[derive(Clone, Copy)]
struct Tally {
    seen: [bool; MAX_SEGMENTS],
    least: Option<(u32, Part)>,
}

/// Returns the least failed segment with its part, after one more segment verdict.
fn lesser(least: Option<(u32, Part)>, segment: u32, part: Option<Part>) -> Option<(u32, Part)>
    ensures { result ≡ lesser_of least segment part }
{
    let Some(part) = part else {
        return least;
    };
    match least {
        Some((first, _)) if first <= segment => least,
        _ => Some((segment, part)),
    }
}

/// Returns how many segments need a verdict: those below the least failed one, or all of them if none failed.
fn end(least: Option<(u32, Part)>, last: u32) -> u32
    ensures { result ≡ end_of least last }
{
    match least {
        Some((segment, _)) => segment,
        None => last,
    }
}

/// Tallies the verdicts. Returns the segment of the first verdict whose segment occurred before, if there is one, as an error.
fn tally_of(verdicts: &[SegmentVerdict]) -> Result<Tally, u32>
    ensures ok { IfOk result (λ t. IsTally verdicts.now (length verdicts.now) t.seen t.least) }
    ensures truth { IfOk result (λ t. All IsTrueSegmentVerdict verdicts.now) }
    ensures double { IfErr result (IsFirstDouble verdicts.now) }
{
    let mut seen = [false; MAX_SEGMENTS];
    let mut least = None;
    for verdict in verdicts {
        let segment = verdict.segment();
        if seen[segment as usize] {
            return Err(segment);
        }
        seen[segment as usize] = true;
        least = lesser(least, segment, verdict.part());
    }
    Ok(Tally { seen, least })
}

/// Returns the first segment below `end` that is not marked as seen.
fn first_unmarked(seen: &[bool; MAX_SEGMENTS], end: u32) -> Option<u32>
    requires { end ≤ MAX_SEGMENTS }
    ensures { IsFirstUnmarked seen.now end result }
{
    for segment in 0..end {
        if !seen[segment as usize] {
            return Some(segment);
        }
    }
    None
}

/// Returns the verdict that follows from segment verdicts of a recording, in any order.
///
/// Verdicts of segments above the least failed one may be missing. It returns a verdict exactly if there is no
/// [`CollectFault`]. It allocates nothing.
pub fn collect(r: &Recording, verdicts: &[SegmentVerdict]) -> Result<Verdict, CollectFault>
    requires { All (λ v. v.recording ≡ r.now) verdicts.now }
    ensures verdict { IfOk result (IsVerdict r.now) }
    ensures whole { OnOk result ((fault : _) → ¬ (IsCollectFault r.now verdicts.now fault)) }
    ensures fault { IfErr result (IsCollectFault r.now verdicts.now) }
    ensures truth { OnOk result (All IsTrueSegmentVerdict verdicts.now) }
    ensures lawful { IsLawfulWithDisk r.now }
{
    let last = r.count() - 1;
    let tally = match tally_of(verdicts) {
        Ok(tally) => tally,
        Err(segment) => return Err(CollectFault::Double(segment)),
    };
    if let Some(segment) = first_unmarked(&tally.seen, end(tally.least, last)) {
        return Err(CollectFault::Missing(segment));
    }
    match tally.least {
        Some((segment, part)) => Ok(Verdict::FalseAt {
            checkpoint: segment + 1,
            count: r.checkpoint(segment + 1).count,
            part,
        }),
        None => Ok(Verdict::Accepted {
            checkpoints: last,
            steps: r.checkpoint(last).count,
        }),
    }
}
