//! What a past answers to a question about a count.
use crate::moment::Moment;

/// The answer to a question about a count, and about the count whose memory the caller has.
#[derive(Drop)]
pub enum Answer {
    /// The state at the count.
    Done(Moment),
    /// The budget is spent. What was found out is kept: ask again to go on.
    More,
    /// One of the counts is after the end of the past.
    Later,
    /// One of the counts is before the first one.
    Earlier,
}
