//! The answers of Project Oberon's recordings: each call takes the bytes of a file, and returns the bytes to write with an exit
//! status.
//!
//! `check` returns the verdict line of a recording, `record` the recording of a session, `screen` the picture of a display that a
//! checkpoint claims, and `migrate` the recording in a later version. For other bytes each returns the line of the first rule
//! that they break. These are for the machine without a disk; those that end in `_in` take the versions of the file, and those that end
//! in `_any` keep a disk if there is one.
//!
//! A call fails only if memory runs out. None of them reads, writes or starts a thread: the program `oberon_cli`
//! and the library for C, `galluspa`, call them. The program's own check replays segments by many workers
//! (`oberon_check::check_bytes`), and has the same answer.
#![tactic(auto)]

mod answer;
mod checking;
mod display;
mod lengths;
mod migration;
mod recording;

pub use answer::Answer;
pub use checking::{check, check_in};
pub use display::{screen, screen_in};
pub use migration::{migrate, migrate_any, migrate_in};
pub use recording::{record, record_any, record_in};
