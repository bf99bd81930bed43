//! The check of a recording by workers, each on a thread of its own.
//!
//! This module starts the threads and joins them. What a worker does is in `worker`, the verdict from all workers' shares in
//! `gathering`, and what is printed in `report`.
ghost use Rattle.std.specs.Prelude.{◌≡◌, ◌≤◌, ℕ, vec_len, map, All, IfOk};
ghost use Rattle.std.specs.Int.{div_ceil};
ghost use Rattle.oberon_claims.specs.Pass.{fresh_pass};
ghost use Rattle.oberon_format.specs.Recording.{last_of};
ghost use Rattle.oberon_check.specs.Verdict.{IsVerdict};
ghost use Rattle.oberon_check.specs.Work.{IsShareOf};

use crate::gate::Gate;
use crate::gathering::gather;
use crate::verdict::Verdict;
use crate::worker::{Done, work};
use oberon_claims::{Claims, MAX_WORKERS, Pass};
use oberon_format::Recording;
use std::alloc::{AllocError, Global};
use std::sync::Wait;
use std::thread::{Threads, map_vec};
use thiserror::Error;

/// Why a check returns no verdict.
#[derive(Clone, Copy, Debug, PartialEq, Eq, Error)]
pub enum CheckFault {
    /// Memory ran out.
    #[error("there is no memory")]
    Memory,
}

impl From<AllocError> for CheckFault {
    ghost use Rattle.std.specs.Prelude.{◌≡◌};
    ghost use Rattle.oberon_check.specs.declared.check.CheckFault.{CheckFault};

    ghost from_gives = { λ _ fault. fault ≡ CheckFault.Memory };

    fn from(_error: AllocError) -> CheckFault {
        CheckFault::Memory
    }
}

/// Runs each pass on its own thread, all over one recording and one book. Returns the workers' shares in the order of
/// the passes, with an error for each worker that ran out of memory.
pub(crate) fn work_all<R: Threads + Sync, G: Gate + Sync>(
    rt: &R,
    alloc: Global,
    r: &Recording,
    claims: &Claims,
    passes: Vec<Pass>,
    cut: u32,
    gate: &G,
) -> Result<Vec<Result<Done, AllocError>>, AllocError>
    requires cut { 1 ≤ cut }
    requires fresh { All (λ p. p ≡ fresh_pass claims.now) passes.items }
    requires jobs { claims.now.jobs ≡ div_ceil (last_of r.now) cut }
    ensures len { IfOk result (λ v. vec_len v ≡ vec_len passes) }
    ensures shares { IfOk result (λ v. All (λ d. IfOk d (IsShareOf r.now cut claims.now)) v.items) }
{
    map_vec(
        rt,
        passes,
        &|pass: Pass| -> Result<Done, AllocError>
            requires { (1 ≤ cut) × (pass ≡ fresh_pass claims.now) × (claims.now.jobs ≡ div_ceil (last_of r.now) cut) }
            ensures { IfOk result (IsShareOf r.entry.now cut claims.entry.now) }
        { work(alloc, r, claims, pass, cut, gate) },
    )
}

/// Returns the shares, or an error if some worker ran out of memory.
pub(crate) fn shares_of(
    alloc: Global,
    results: Vec<Result<Done, AllocError>>,
) -> Result<Vec<Done>, AllocError>
    ensures { IfOk result (λ shares. map Ok shares.items ≡ results.items) }
{
    let mut done = Vec::new(alloc);
    for result in results {
        let share = result?;
        done.push(share)?;
    }
    Ok(done)
}

/// Returns the verdict from the workers' results, or an error if memory ran out.
fn verdict_of(
    alloc: Global,
    r: &Recording,
    claims: Claims,
    results: Vec<Result<Done, AllocError>>,
) -> Result<Verdict, AllocError>
    requires len { vec_len results ≡ claims.workers }
    requires shares { (cut : ℕ) × All (λ d. IfOk d (IsShareOf r.now cut claims)) results.items }
    ensures { IfOk result (IsVerdict r.now) }
{
    let done = shares_of(alloc, results)?;
    gather(alloc, r, claims, done)
}

/// Returns the verdict on a recording. `workers` threads, 1 to `MAX_WORKERS`, replay its segments; a job is `cut` consecutive
/// segments.
///
/// The verdict depends neither on `workers` nor on `cut`. The gate is called once before each job. The call waits until all
/// workers have ended. It returns `Memory` only if memory runs out.
pub fn check_recording<R: Threads + Wait + Sync, G: Gate + Sync>(
    rt: &R,
    alloc: Global,
    r: &Recording,
    workers: u32,
    cut: u32,
    gate: &G,
) -> Result<Verdict, CheckFault>
    requires workers { (1 ≤ workers) × (workers ≤ MAX_WORKERS) }
    requires cut { 1 ≤ cut }
    ensures { IfOk result (IsVerdict r.now) }
{
    let jobs = (r.count() - 1).div_ceil(cut);
    let (claims, passes) = Claims::new(alloc, jobs, workers)?;
    let results = work_all(rt, alloc, r, &claims, passes, cut, gate)?;
    Ok(verdict_of(alloc, r, claims, results)?)
}
