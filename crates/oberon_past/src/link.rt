//! What a past answers about where a value comes from.
use crate::found::OutOfRange;
use crate::origins::Origins;
use crate::write::Write;

/// How an instruction wrote a part.
#[derive(Clone, Copy, Debug, PartialEq, Eq)]
pub struct Computation {
    /// The program counter before the instruction, in words.
    pub pc: u32,
    /// The word of the instruction; none if it is beyond RAM, where the machine stops.
    pub word: Option<u32>,
    /// The bits of the part that the instruction wrote. The others that its mask names come from an earlier write: ask about them before
    /// the count of this one.
    pub bits: u32,
    /// The parts from which it computed what it wrote, none for a constant. Ask about each before the count that `asked_before`
    /// returns.
    pub origins: Origins,
}

/// Where the value of a part comes from.
#[derive(Clone, Copy, Debug, PartialEq, Eq)]
pub struct Link {
    /// The value: that of the input if one wrote it, else the bits of the part that its mask names, after the write or at the first
    /// count. Of waiting keys at the first count it is the oldest code, or 0.
    pub value: u32,
    /// The last write; none if there is none from the first count on.
    pub write: Option<Write>,
    /// How it was computed, if an instruction wrote it.
    pub computation: Option<Computation>,
}

/// The result of a question about where a value comes from.
#[derive(Clone, Copy, Debug, PartialEq, Eq)]
pub enum Why {
    /// The link from the value to its last write.
    Done(Link),
    /// The budget is spent. There is no write of the part at this count or later.
    More(u64),
    /// The counts up to the one asked about are not those of the past.
    OutOfRange(OutOfRange),
}
