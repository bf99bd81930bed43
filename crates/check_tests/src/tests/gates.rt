//! Gates that hold a job back until other jobs have begun.

use oberon_check::Gate;
use std::alloc::{AllocError, Global};
use std::sync::atomic::{AtomicU64, Ordering};

/// How often a held job looks for the others before it continues without them.
const TURNS: u32 = 1_000_000_000;

/// A job that is held until all jobs of `awaits` have begun.
#[derive(Clone, Copy)]
pub(crate) struct Hold<'a> {
    pub job: u32,
    pub awaits: &'a [u32],
}

/// Jobs 0 and 1 wait for each other.
pub(crate) const EACH_OTHER: [Hold<'static>; 2] = [
    Hold {
        job: 0,
        awaits: &[1],
    },
    Hold {
        job: 1,
        awaits: &[0],
    },
];

/// A gate that marks each job that begins, holds some, and counts in `met` those that continued because the others began.
#[derive(Drop)]
pub(crate) struct HoldingGate<'a> {
    pub holds: &'a [Hold<'a>],
    pub begun: &'a [AtomicU64],
    pub met: &'a AtomicU64,
}

impl HoldingGate<'_> {
    fn has_begun(&self, job: u32) -> bool {
        match self.begun.get(job as usize) {
            Some(begun) => begun.load(Ordering::SeqCst) > 0,
            None => false,
        }
    }

    fn have_begun(&self, jobs: &[u32]) -> bool {
        for job in jobs {
            if !self.has_begun(*job) {
                return false;
            }
        }
        true
    }

    fn hold(&self, awaits: &[u32]) {
        for _ in 0..TURNS {
            if self.have_begun(awaits) {
                self.met.fetch_add(1, Ordering::SeqCst);
                return;
            }
        }
    }
}

impl Gate for HoldingGate<'_> {
    fn before(&self, job: u32) {
        if let Some(begun) = self.begun.get(job as usize) {
            begun.fetch_add(1, Ordering::SeqCst);
        }
        for hold in self.holds {
            if hold.job == job {
                self.hold(hold.awaits);
            }
        }
    }
}

/// Returns `count` counters, all 0.
pub(crate) fn counters(alloc: Global, count: u32) -> Result<Vec<AtomicU64>, AllocError> {
    let mut begun = Vec::new(alloc);
    for _ in 0..count {
        begun.push(AtomicU64::new(0))?;
    }
    Ok(begun)
}
