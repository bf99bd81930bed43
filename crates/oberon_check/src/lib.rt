//! The check: whether the checkpoints of a recording are what one uninterrupted run gives.
//!
//! A *segment* is the stretch from one checkpoint to the next. Workers replay segments in any order, each from what its
//! checkpoint claims. The least failed segment leads to the verdict of one uninterrupted replay from checkpoint 0. Machines
//! are in `risc_machine`, and the encoding of recordings in `oberon_format`.
#![tactic(auto)]

mod check;
mod collector;
mod difference;
mod gate;
mod gathering;
mod laws;
mod part;
mod replayer;
mod report;
mod segment;
mod verdict;
mod versions;
mod worker;

pub use check::{CheckFault, check_recording};
pub use collector::{CollectFault, collect};
pub use difference::claim_difference;
pub use gate::{FreeGate, Gate};
pub use gathering::gather;
pub use laws::{difference_law, line_law, migration_law, verdict_law, versions_law};
pub use part::Part;
pub use report::{Report, check_bytes, check_bytes_in};
pub use segment::{SegmentVerdict, replay_segment};
pub use verdict::Verdict;
pub use versions::Versions;
pub use worker::{Done, work};
