//! The interpreter: runs the RISC5 workstation of Project Oberon, one instruction at a time or from count to count.
//!
//! The definitions of a step and of a run are in `risc_model`, and each contract here uses them. Instructions, memory and
//! devices are in the crates below. This crate puts them together and keeps the loop fast.
#![tactic(auto)]

mod accesses;
mod branch_log;
mod branches;
mod call_log;
mod clocked;
mod counters;
mod decode_cache;
mod decoded_op;
mod destination;
mod detached;
mod dispatch;
mod follow;
mod follower;
mod following;
mod frame;
mod hop;
mod idle_loop;
mod laws;
mod lines;
mod machine;
mod observer;
mod operand;
mod perform;
mod predecode;
mod processor;
mod registers;
mod run;
mod run_exit;
mod running;
mod schedule;
mod searching;
mod sink;
mod status;
mod store_log;
mod watch;

pub use call_log::CallLog;
pub use counters::Counters;
pub use detached::DetachedMachine;
pub use laws::capacity_law;
pub use machine::Machine;
pub use risc_model::{
    Call, Cpu, Event, Flags, Inputs, MAX_COUNT, Turn, Unordered, calls_law, idle_loop_law,
    idle_visit_law, lane_law, run_law, stop_law, stopped_law, visit_law,
};
pub use run_exit::RunFault;
pub use sink::Output;
pub use store_log::{OldWord, StoreLog};
pub use watch::Watch;
