//! What a search through a past finds.
use risc_search::{Hit, Hits};

/// Which hit of a range a search looks for.
#[derive(Clone, Copy, Debug, PartialEq, Eq)]
pub enum Which {
    /// The one with the lowest count.
    First,
    /// The one with the highest count.
    Last,
}

/// Why a range of counts is refused.
#[derive(Clone, Copy, Debug, PartialEq, Eq)]
pub enum OutOfRange {
    /// It begins before the first count of the past.
    Earlier,
    /// It ends after the end of the past.
    Later,
    /// It ends before it begins.
    Backward,
}

/// The result of a search for one hit of a range.
#[derive(Clone, Copy, Debug, PartialEq, Eq)]
pub enum Found {
    /// The hit, or none if no condition holds in the range.
    Done(Option<Hit>),
    /// The budget is spent. No condition holds between this count and the end of the range from which the search began: if the first hit
    /// is looked for, none holds before this count, and if the last one is, none holds at it or after it.
    More(u64),
    /// The range is not one of the past.
    OutOfRange(OutOfRange),
}

/// The result of a search for all hits of a range.
#[derive(Drop)]
pub enum AllFound {
    /// All hits of the range, and `next` is its end; or as many as there is room for, and `next` is the count after the last of them.
    Done(Hits),
    /// The budget is spent. The list has all hits before the count `next`, and there is room for more.
    More(Hits),
    /// The range is not one of the past.
    OutOfRange(OutOfRange),
}
