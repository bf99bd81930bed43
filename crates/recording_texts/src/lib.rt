//! Recording files for tests, of each version, encoded from what their checkpoints claim.
//!
//! Only tests use it. It depends on no other crate, least of all `oberon_format`, and encodes the bytes on its own, as
//! `docs/formats.md` defines them: an independent witness of what the product reads and writes. It does not test whether a
//! recording is lawful or true. Its contracts define what it encodes, byte by byte.
#![tactic(auto)]

mod bytes;
mod claim;
mod named;
mod sketch;

pub use claim::{Claim, FIRST_PAGE, ZEROS};
pub use named::{ANSWERED_JUMPS, EMPTY, EQUAL_PAGES, JUMP, JUMPS, ONE_BYTE_SENT, STORED_RUN};
pub use sketch::{Event, Sketch, header};
