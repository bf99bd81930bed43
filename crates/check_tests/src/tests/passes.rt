//! A book whose passes the caller works with `work`, on its own threads or in turn, and whose shares it gives to `gather`.
ghost use Rattle.std.specs.Prelude.{◌≡◌, ◌≤◌, All, IfOk, vec_len};
ghost use Rattle.std.specs.Int.{div_ceil};
ghost use Rattle.oberon_claims.specs.Pass.{fresh_pass};
ghost use Rattle.oberon_format.specs.Recording.{last_of};
ghost use Rattle.oberon_check.specs.Work.{IsShareOf};

use super::jumps::{FALSE_LEDS, LIT_LEDS, jump_recording};
use super::segments::are_verdicts;
use oberon_check::{Done, FreeGate, Part, Verdict, gather, work};
use oberon_claims::{Claims, Pass};
use oberon_format::Recording;
use std::alloc::{AllocError, Global};
use std::test::Fail;
use std::thread::{Threads, map_vec};

/// Runs each pass on its own thread.
fn work_all<R: Threads + Sync>(
    rt: &R,
    alloc: Global,
    r: &Recording,
    claims: &Claims,
    passes: Vec<Pass>,
) -> Result<Vec<Result<Done, AllocError>>, AllocError>
    requires fresh { All (λ p. p ≡ fresh_pass claims.now) passes.items }
    requires jobs { claims.now.jobs ≡ div_ceil (last_of r.now) 1 }
    ensures len { IfOk result (λ v. vec_len v ≡ vec_len passes) }
    ensures shares { IfOk result (λ v. All (λ d. IfOk d (IsShareOf r.now 1 claims.now)) v.items) }
{
    map_vec(
        rt,
        passes,
        &|pass: Pass| -> Result<Done, AllocError>
            requires { (pass ≡ fresh_pass claims.now) × (claims.now.jobs ≡ div_ceil (last_of r.now) 1) }
            ensures { IfOk result (IsShareOf r.entry.now 1 claims.entry.now) }
        { work(alloc, r, claims, pass, 1, &FreeGate) },
    )
}

/// Returns the shares, or an error if some worker ran out of memory.
fn all_done(
    alloc: Global,
    r: &Recording,
    claims: &Claims,
    results: Vec<Result<Done, AllocError>>,
) -> Result<Vec<Done>, AllocError>
    requires { All (λ d. IfOk d (IsShareOf r.now 1 claims.now)) results.items }
    ensures len { IfOk result (λ v. vec_len v ≡ vec_len results) }
    ensures shares { IfOk result (λ v. All (IsShareOf r.now 1 claims.now) v.items) }
{
    // Only the contract uses these.
    let _ = r;
    let _ = claims;
    let mut done = Vec::new(alloc);
    for result in results {
        let share = result?;
        done.push(share)?;
    }
    Ok(done)
}

/// Returns the verdict from eight passes, each worked on a thread of the caller.
fn verdict_of_eight<R: Threads + Sync>(
    rt: &R,
    alloc: Global,
    r: &Recording,
) -> Result<Verdict, AllocError> {
    let jobs = (r.count() - 1).div_ceil(1);
    let (claims, passes) = Claims::new(alloc, jobs, 8)?;
    let results = work_all(rt, alloc, r, &claims, passes)?;
    let done = all_done(alloc, r, &claims, results)?;
    gather(alloc, r, claims, done)
}

/// Returns the verdict from eight passes on ten jumps with two false checkpoints.
fn eight_on_jumps<R: Threads + Sync>(rt: &R, alloc: Global) -> Result<Verdict, Fail> {
    let r = jump_recording(alloc, 10, &LIT_LEDS)?;
    Ok(verdict_of_eight(rt, alloc, &r)?)
}

/// Ten segments, false checkpoints 3 and 7, and a pass for each of eight threads.
#[test]
fn eight_passes_on_threads_of_the_caller(rt: HostRuntime) -> Result<(), Fail> {
    let verdict = eight_on_jumps(&rt, rt.alloc())?;
    assert!(rt; verdict == FALSE_LEDS, "another verdict");
    Ok(())
}

/// Works the passes one after the other, on this thread.
fn work_in_turn(
    alloc: Global,
    r: &Recording,
    claims: &Claims,
    passes: Vec<Pass>,
    cut: u32,
) -> Result<Vec<Done>, AllocError>
    requires cut { 1 ≤ cut }
    requires fresh { All (λ p. p ≡ fresh_pass claims.now) passes.items }
    requires jobs { claims.now.jobs ≡ div_ceil (last_of r.now) cut }
    ensures len { IfOk result (λ v. vec_len v ≡ vec_len passes) }
    ensures shares { IfOk result (λ v. All (IsShareOf r.now cut claims.now) v.items) }
{
    let mut done = Vec::new(alloc);
    for pass in passes {
        let share = work(alloc, r, claims, pass, cut, &FreeGate)?;
        done.push(share)?;
    }
    Ok(done)
}

/// The verdicts of the first pass, which takes all jobs: it reports segment 2, and skips the other jobs.
const FIRST_SHARE: [(u32, Option<Part>); 3] = [(0, None), (1, None), (2, Some(Part::Leds))];

/// Reports whether there are two shares, the first with all verdicts and the second with none.
fn first_has_all(done: &[Done]) -> bool {
    match done {
        [first, second] => {
            are_verdicts(first.verdicts(), &FIRST_SHARE) && second.verdicts().is_empty()
        }
        _ => false,
    }
}

/// Works two passes one after the other. Reports whether the first has all verdicts, and whether both give the first false
/// checkpoint.
fn work_of_two(alloc: Global, r: &Recording) -> Result<(bool, bool), AllocError> {
    let jobs = (r.count() - 1).div_ceil(4);
    let (claims, passes) = Claims::new(alloc, jobs, 2)?;
    let done = work_in_turn(alloc, r, &claims, passes, 4)?;
    let all = first_has_all(done.as_slice());
    Ok((all, gather(alloc, r, claims, done)? == FALSE_LEDS))
}

/// Reports the same of ten jumps with two false checkpoints.
fn two_on_jumps(alloc: Global) -> Result<(bool, bool), Fail> {
    let r = jump_recording(alloc, 10, &LIT_LEDS)?;
    Ok(work_of_two(alloc, &r)?)
}

/// The first of two passes takes all jobs: it reports segment 2, and skips the other jobs.
#[test]
fn first_pass_takes_all(rt: HostRuntime) -> Result<(), Fail> {
    let (all, first) = two_on_jumps(rt.alloc())?;
    assert!(rt;
        all,
        "the first pass has other verdicts, or the second has any"
    );
    assert!(rt; first, "another verdict");
    Ok(())
}
