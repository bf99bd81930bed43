//! The sizes that a recording and a session may have: each limit by its one name.
//!
//! These are the limits that more than one crate has. The faults of files above them, and limits of single fields, are in the
//! crates that read them; the greatest count is in `risc_model`.
#![tactic(auto)]

mod laws;
mod limits;

pub use laws::limits_law;
pub use limits::{
    LAST_CHECKPOINT, LONGEST_SESSION, MAX_EVENTS, MAX_EVENTS_WITH_DISK, MAX_OUTPUT, MAX_PAGES,
};
