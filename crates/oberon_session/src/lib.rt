//! Sessions of the RISC5 workstation: an initial state, inputs with their counts, and the counts at which to place checkpoints.
//!
//! A session is JSON in this project's own format. This crate reads sessions, or reports the first rule that the JSON breaks. It
//! makes the recording of a session, or reports which limit the recording would exceed. `json` reads the tokens of the JSON, whose
//! value `serde_json` defines, and `hex` the digits of pages. A session can also be made from its parts. A recording can also be
//! made while a machine runs: it begins with any state, and is extended checkpoint by checkpoint.
#![tactic(auto)]

mod claim;
mod digits;
mod draft;
mod events;
mod extend_fault;
mod extension;
mod fault;
mod following;
mod head;
mod input;
mod laws;
mod list;
mod page;
mod parts;
mod range;
mod reading;
mod record_fault;
mod recorder;
mod running;
mod session;
mod shape;
mod start;
mod storing;
mod value;

pub use claim::Claim;
pub use digits::PlacedPage;
pub use extend_fault::ExtendFault;
pub use extension::{begin_recording, extend_recording};
pub use fault::SessionFault;
pub use laws::{answer_law, first_table_law, laid_law, piece_law, plain_law};
pub use reading::{read_session, read_session_with_disk};
pub use record_fault::RecordFault;
pub use recorder::make_recording;
pub use recording_limits::LONGEST_SESSION;
pub use session::Session;
pub use storing::{StoredPages, store_pages, store_words};
