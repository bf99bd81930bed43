//! What a past has.

/// The counts of a past, and what it keeps.
#[derive(Clone, Copy, Debug, PartialEq, Eq)]
pub struct Extent {
    /// The first count.
    pub first: u64,
    /// The last count that can be asked about.
    pub end: u64,
    /// The count of the last keyframe: an answer about a count that is far after it has to run first.
    pub reached: u64,
    /// The number of keyframes.
    pub keyframes: usize,
    /// The number of pages of the keyframes.
    pub pages: u32,
    /// The number of inputs.
    pub inputs: usize,
}
