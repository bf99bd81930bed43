//! How often each job begins, in a recording with two false checkpoints.

use super::checked::{Crew, checked};
use super::gates::counters;
use super::jumps::{FALSE_LEDS, LIT_LEDS, Written, jump_recording, jumps};
use oberon_check::{Gate, Verdict, check_recording};
use oberon_format::Recording;
use std::alloc::Global;
use std::sync::Wait;
use std::sync::atomic::{AtomicU64, Ordering};
use std::test::Fail;
use std::thread::Threads;

/// A gate that counts how often each job begins.
#[derive(Drop)]
struct CountingGate<'a> {
    begun: &'a [AtomicU64],
}

impl Gate for CountingGate<'_> {
    fn before(&self, job: u32) {
        if let Some(begun) = self.begun.get(job as usize) {
            begun.fetch_add(1, Ordering::SeqCst);
        }
    }
}

/// Reports whether each of the first `jobs` jobs has begun once, and no other has begun.
fn each_begun_once(begun: &[AtomicU64], jobs: u32) -> bool {
    for (job, begun) in begun.iter().enumerate() {
        if begun.load(Ordering::SeqCst) != u64::from(job < jobs as usize) {
            return false;
        }
    }
    true
}

/// The number of workers, of segments in a job, and of jobs that ten segments make.
const CREWS: [(u32, u32, u32); 9] = [
    (1, 1, 10),
    (2, 1, 10),
    (64, 1, 10),
    (1, 4, 3),
    (2, 4, 3),
    (64, 4, 3),
    (1, 100, 1),
    (2, 100, 1),
    (64, 100, 1),
];

/// Returns the verdict on a recording, or fails if not each of its jobs begins once and no other.
fn counted_verdict<R: Threads + Wait + Sync>(
    rt: &R,
    alloc: Global,
    r: &Recording,
    crew: Crew,
    jobs: u32,
) -> Result<Verdict, Fail> {
    let workers = crew.workers.min(64).max(1);
    let begun = counters(alloc, 12)?;
    let gate = CountingGate {
        begun: begun.as_slice(),
    };
    let verdict = check_recording(rt, alloc, r, workers, crew.cut.max(1), &gate)?;
    if !each_begun_once(begun.as_slice(), jobs) {
        return Err("a job is lost, or begins twice".into());
    }
    Ok(verdict)
}

/// Returns the verdict on ten jumps with two false checkpoints, or fails as `counted_verdict` does.
fn verdict_of_jumps<R: Threads + Wait + Sync>(
    rt: &R,
    alloc: Global,
    crew: Crew,
    jobs: u32,
) -> Result<Verdict, Fail> {
    let r = jump_recording(alloc, 10, &LIT_LEDS)?;
    counted_verdict(rt, alloc, &r, crew, jobs)
}

#[test]
fn two_false_checkpoints(rt: HostRuntime) -> Result<(), Fail> {
    for (workers, cut, jobs) in CREWS {
        let verdict = verdict_of_jumps(&rt, rt.alloc(), Crew { workers, cut }, jobs)?;
        assert!(rt; verdict == FALSE_LEDS, "{workers} workers, cut {cut}");
    }
    Ok(())
}

/// Reports whether the line of a file names the false checkpoint, and whether each of its jobs begins once and no other.
fn counted_line<R: Threads + Wait + Sync>(
    rt: &R,
    alloc: Global,
    bytes: &[u8],
    crew: Crew,
    jobs: u32,
) -> Result<(bool, bool), Fail> {
    let begun = counters(alloc, 12)?;
    let gate = CountingGate {
        begun: begun.as_slice(),
    };
    let report = checked(rt, alloc, bytes, crew, &gate)?;
    let line = b"false checkpoint 3 at 30 part LEDs\n";
    let named = report.line.as_slice() == line.as_slice();
    Ok((
        named && report.status == 1,
        each_begun_once(begun.as_slice(), jobs),
    ))
}

/// Reports the same of the file of ten jumps with two false checkpoints.
fn line_of_jumps<R: Threads + Wait + Sync>(
    rt: &R,
    alloc: Global,
    crew: Crew,
    jobs: u32,
) -> Result<(bool, bool), Fail> {
    let written = Written {
        recording: jumps(10),
        changes: &LIT_LEDS,
        version: 1,
    };
    let bytes = written.bytes(alloc)?;
    counted_line(rt, alloc, bytes.as_slice(), crew, jobs)
}

#[test]
fn lines_of_two_false_checkpoints(rt: HostRuntime) -> Result<(), Fail> {
    for (workers, cut, jobs) in CREWS {
        let (named, once) = line_of_jumps(&rt, rt.alloc(), Crew { workers, cut }, jobs)?;
        assert!(rt; named, "another line by {workers} workers, cut {cut}");
        assert!(rt;
            once,
            "a job is lost, or begins twice, by {workers} workers, cut {cut}"
        );
    }
    Ok(())
}
