//! What a search finds.

/// A count at which a condition holds.
#[derive(Clone, Copy, Debug, PartialEq, Eq)]
pub struct Hit {
    pub count: u64,
    /// The index of the first condition of the list that holds there.
    pub condition: usize,
}

/// The hits of a range up to a count.
#[derive(Drop)]
pub struct Hits {
    /// The hits, in the order of their counts.
    pub list: Vec<Hit>,
    /// The count that the search came to: the hits of the range that are not in the list are at it or later.
    pub next: u64,
}
