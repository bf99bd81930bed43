//! The verdict from the shares of all workers. A single worker's share is in `worker`.
ghost use Rattle.std.specs.Prelude.{◌≡◌, ℕ, [], ◌∷◌, ◌++◌, vec_len, All, IfOk, OnOk};
ghost use Rattle.oberon_check.specs.Gathering.{all_verdicts, IsGathered};
ghost use Rattle.oberon_format.specs.Recording.{RecordingParts};
ghost use Rattle.oberon_check.specs.Verdict.{IsVerdict};
ghost use Rattle.oberon_check.specs.Work.{IsDone, IsShareOf};
ghost use Rattle.oberon_check.specs.inner.Progress.{AreCollected};

use crate::collector::collect;
use crate::segment::SegmentVerdict;
use crate::verdict::Verdict;
use crate::worker::Done;
use oberon_claims::{Claims, Pass};
use oberon_format::Recording;
use std::alloc::{AllocError, Global};

/// Takes a share apart: appends its pass to the passes, and its verdicts to the verdicts.
fn take_apart(
    share: Done,
    passes: &mut Vec<Pass>,
    verdicts: &mut Vec<SegmentVerdict>,
) -> Result<(), AllocError>
    ensures passes { OnOk result (passes.new.items ≡ passes.old.items ++ share.pass ∷ []) }
    ensures verdicts { OnOk result (verdicts.new.items ≡ verdicts.old.items ++ share.verdicts) }
    ensures done { OnOk result (IsDone share) }
{
    let (pass, mut mine) = share.into_parts();
    passes.push(pass)?;
    verdicts.append(&mut mine)?;
    Ok(())
}

/// Closes the book on the passes of all shares, and returns the verdicts of all shares, in the order of the shares. The
/// collector finds no fault in them.
fn all_verdicts(
    alloc: Global,
    claims: Claims,
    done: Vec<Done>,
) -> Result<Vec<SegmentVerdict>, AllocError>
    requires all { vec_len done ≡ claims.workers }
    requires shares { (r : RecordingParts) × (cut : ℕ) × All (IsShareOf r cut claims) done.items }
    ensures verdicts { IfOk result (λ vs. vs.items ≡ all_verdicts done.items) }
    ensures collected { IfOk result (λ vs.
        (r : RecordingParts) (cut : ℕ) → All (IsShareOf r cut claims) done.items → AreCollected r done.items vs.items) }
{
    let mut passes = Vec::new(alloc);
    let mut verdicts = Vec::new(alloc);
    for share in done {
        take_apart(share, &mut passes, &mut verdicts)?;
    }
    let _ledger = claims.finish(passes);
    Ok(verdicts)
}

/// Returns the verdict on a recording from the shares of all passes of a book, which were worked over it with one cut.
///
/// The contract says what the verdict depends on. No segment has two verdicts among the shares. Each segment below the
/// answer's was replayed and held. A segment without a verdict is after the least that any worker reported. If memory runs
/// out, all shares are lost.
pub fn gather(
    alloc: Global,
    r: &Recording,
    claims: Claims,
    done: Vec<Done>,
) -> Result<Verdict, AllocError>
    requires all { vec_len done ≡ claims.workers }
    requires shares { (cut : ℕ) × All (IsShareOf r.now cut claims) done.items }
    ensures verdict { IfOk result (IsVerdict r.now) }
    ensures gathered { IfOk result (IsGathered r.now done.items) }
{
    let verdicts = all_verdicts(alloc, claims, done)?;
    match collect(r, verdicts.as_slice()) {
        Ok(verdict) => Ok(verdict),
        Err(_) => unreachable!(),
    }
}
