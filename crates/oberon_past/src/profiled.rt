//! How far a past was profiled.
use crate::found::OutOfRange;

/// The result of a question about how often a run executes each word of memory.
#[derive(Clone, Copy, Debug, PartialEq, Eq)]
pub enum Profiled {
    /// The whole range is counted.
    Done,
    /// The budget is spent. The range is counted up to, but not including, this count.
    More(u64),
    /// The range is not one of the past. Nothing is counted.
    OutOfRange(OutOfRange),
}
