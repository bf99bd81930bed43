//! What a past answers about the writes of a part.
use crate::found::OutOfRange;

/// What writes a part.
#[derive(Clone, Copy, Debug, PartialEq, Eq)]
pub enum Writer {
    /// The instruction of the count.
    Instruction,
    /// The input with this index, the last of its kind that the machine takes at the count.
    Input(usize),
}

/// A write of a part.
#[derive(Clone, Copy, Debug, PartialEq, Eq)]
pub struct Write {
    /// The count of the instruction that writes the part, or of the input.
    pub count: u64,
    pub by: Writer,
}

/// The result of a question about the last write of a part before a count.
#[derive(Clone, Copy, Debug, PartialEq, Eq)]
pub enum LastWrite {
    /// The write; or none if there is none from the first count on: then the part is as it was there.
    Done(Option<Write>),
    /// The budget is spent. There is no such write at this count or later.
    More(u64),
    /// The counts up to the one asked about are not those of the past.
    OutOfRange(OutOfRange),
}
