//! What a trace of a past has.
use crate::found::OutOfRange;
use risc_devices::Devices;
use risc_model::Cpu;
use risc_search::Effect;

/// What the instruction of a count does, and the state before it.
#[derive(Drop)]
pub struct Record {
    /// The number of instructions before it.
    pub count: u64,
    /// The processor before the instruction.
    pub cpu: Cpu,
    /// The devices before the instruction and before the inputs of its count.
    pub devices: Devices,
    /// What the instruction does.
    pub effect: Effect,
}

/// The records of the instructions from a count on, one for each count.
#[derive(Drop)]
pub struct Records {
    /// The records, in the order of their counts.
    pub list: Vec<Record>,
    /// The count after the last record.
    pub next: u64,
}

/// The result of a question about what instructions do.
#[derive(Drop)]
pub enum Recorded {
    /// The records of all counts of the range, or as many as there is room for.
    Done(Records),
    /// The budget is spent. The list has the records before the count `next`, and there is room for more.
    More(Records),
    /// The range is not one of the past.
    OutOfRange(OutOfRange),
}
