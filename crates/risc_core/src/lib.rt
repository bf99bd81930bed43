//! The instructions of the RISC5 processor of Project Oberon, as functions on words: how a word is decoded, what an operation
//! computes, when a branch is taken and where it goes, and the target of an address.
//!
//! The rules are those of "The RISC Architecture" (N. Wirth) and of the hardware chapters of Project Oberon 2013. If they leave
//! something open, this project's own choice is marked as such. Each function equals a definition in whole numbers, in `specs/`.
//! Nothing here allocates memory. The state of a machine, its memory and its devices are in the crates above.
#![tactic(auto)]

mod address;
mod arithmetic;
mod branch;
pub mod conditions;
mod decoding;
mod flags;
mod instruction;
mod laws;
mod locate;
pub mod operations;
mod stop;
mod sums;
mod word;

pub use address::Place;
pub use arithmetic::{AluOut, alu, multiply, quotient, simple_value};
pub use branch::{COUNTER_END, LINK_REGISTER, link, reg_target, taken, taken_by_table, target};
pub use decoding::decode;
pub use flags::{Flags, written};
pub use instruction::Instr;
pub use laws::{
    bits_law, counter_law, division_law, flags_law, instruction_law, numbers_law, width_law,
};
pub use locate::{DEVICES, RAM_END, place};
pub use stop::Stop;
pub use sums::{Sum, add, subtract};
pub use word::is_set;
