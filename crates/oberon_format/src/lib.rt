//! Recordings of sessions of the RISC5 workstation, and their files.
//!
//! A recording is a pool of pages, a list of inputs with their counts, and checkpoints that claim the machine's state at their
//! counts. Each recording has exactly one file of version 3, and each without a disk one of version 2 and at most one of version 1;
//! the formats are this project's own. This crate reads a file or reports its first fault, makes a recording from parts or reports
//! the first fault of their file, and writes a recording. Functions named `with_disk` take recordings and files with a disk too. It
//! does not check whether a checkpoint's claim is true: `Defined` in `specs/` says what that means.
#![tactic(auto)]

mod change;
mod checkpoint;
mod fault;
mod fields;
mod formed;
mod laws;
mod layout;
mod limits;
mod line;
mod migration;
mod number;
mod parts;
mod ranges;
mod reading;
mod recording;
mod rules;
mod writing;

pub use checkpoint::Checkpoint;
pub use fault::Fault;
pub use formed::{bytes_fit, words_fit};
pub use laws::{
    cut_file_law, cut_file_with_disk_law, fault_of_parts_law, fault_of_parts_with_disk_law,
    file_of_parts_law, file_of_parts_with_disk_law, file_or_fault_law, file_or_fault_with_disk_law,
    lawful_parts_law, lawful_parts_with_disk_law, longest_file_law, longest_file_with_disk_law,
    migrated_again_law, migrated_again_with_disk_law, named_fault_law, named_fault_with_disk_law,
    numbers_law, one_file_at_most_law, one_file_law, one_file_with_disk_law, one_recording_law,
    one_recording_with_disk_law, read_back_law, read_back_with_disk_law, written_back_law,
    written_back_with_disk_law,
};
pub use layout::{LONGEST_RECORDING, LONGEST_WITH_DISK, VERSION, VERSION_WITH_DISK};
pub use line::refusal;
pub use migration::{migrate, migrate_with_disk};
pub use reading::{read, read_with_disk};
pub use recording::Recording;
pub use recording_limits::{
    LAST_CHECKPOINT, MAX_EVENTS, MAX_EVENTS_WITH_DISK, MAX_OUTPUT, MAX_PAGES,
};
pub use risc_model::MAX_COUNT;
pub use writing::{write, write_with_disk};
