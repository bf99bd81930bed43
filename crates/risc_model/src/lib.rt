//! The model of the RISC5 workstation: what a machine is, what one instruction does to it, and what a run that takes inputs at
//! their counts reaches and sends.
//!
//! The definitions in `specs/` describe one machine of whole numbers over a flat map of words. The contracts of all crates above
//! use them. This crate runs nothing: the interpreter is in `risc_machine`. Instructions, addresses and devices are in the crates
//! below.
#![tactic(auto)]

mod call;
mod cpu;
mod event;
mod inputs;
mod laws;

pub use call::{Call, Turn};
pub use cpu::Cpu;
pub use event::Event;
pub use inputs::{Inputs, MAX_COUNT, Unordered, first_from, quiet_until};
pub use laws::{
    calls_law, disk_law, idle_loop_law, idle_visit_law, inclusive_law, lane_law, last_count_law,
    run_law, stack_law, stop_law, stopped_law, turns_law, visit_law,
};
pub use risc_core::Flags;
