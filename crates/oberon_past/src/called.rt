//! What a past has of the calls of its run.
use crate::found::OutOfRange;
use risc_machine::CallLog;

/// The calls of a run from a count on, up to the count `next`.
#[derive(Drop)]
pub struct Calls {
    /// The calls that are open at the count `next`, and the turns up to there.
    pub log: CallLog,
    /// The count up to which the calls are followed.
    pub next: u64,
}

/// The result of a question about the calls of a range.
#[derive(Drop)]
pub enum Called {
    /// The calls of the range, and `next` is its end; or of as much of it as there is room for in the log.
    Done(Calls),
    /// The budget is spent. The calls before the count `next` are followed, and there is room for more.
    More(Calls),
    /// The range is not one of the past.
    OutOfRange(OutOfRange),
}
