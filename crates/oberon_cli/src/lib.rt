//! The command line of Project Oberon's recordings: what arguments ask for, reading the input, the answer of each command, and
//! writing it.
//!
//! `serve` is the whole program as a function of its arguments, a reader and a writer; `run` is the same with the program's name
//! before the arguments and an exit status. The crates below make verdicts, recordings and pictures. The program itself,
//! `oberon_replay`, only passes the arguments and the streams of its process to `run`.
#![tactic(auto)]

mod answer;
mod arguments;
mod choice;
mod command;
mod failure;
mod laws;
mod process;
mod service;
mod sink;
mod source;

pub use failure::Failure;
pub use laws::defaults_law;
pub use process::{fail, process_arguments, run, texts};
pub use service::{refuse, serve};
pub use sink::{Sink, WriteFault};
pub use source::Source;
