//! The gate: a call before each job of a worker, by which tests hold workers back.

/// What a worker calls once before each job, after it claimed the job. The worker goes on when the call returns.
pub trait Gate {
    /// Is called before this job.
    fn before(&self, job: u32);
}

/// The gate that does nothing.
#[derive(Clone, Copy, Debug)]
pub struct FreeGate;

impl Gate for FreeGate {
    fn before(&self, _job: u32) {}
}
