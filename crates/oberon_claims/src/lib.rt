//! The claim book: workers on many threads take numbered jobs, over two atomic words.
//!
//! [`Claims`] is the book, which the workers share by reference. [`Pass`] is one worker's ticket to it, and [`Ledger`] the
//! result of the book once all passes are back. The crates above define what a job and a segment are, and start the
//! workers. There is no lock and no channel, and nothing waits: each of [`Claims::claim`], [`Claims::look`] and
//! [`Claims::tell`] is at most one atomic step. `docs/claims.md` describes the protocol.
#![tactic(auto)]

mod book;
mod claims;
mod laws;
mod ledger;
mod own;
mod pass;

pub use claims::{Claims, MAX_JOBS, MAX_WORKERS};
pub use laws::book_limits_law;
pub use ledger::Ledger;
pub use pass::Pass;
