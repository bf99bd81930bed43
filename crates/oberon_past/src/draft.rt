//! A recording that is made of a past, checkpoint by checkpoint.
use oberon_format::Recording;

/// A recording of a past up to its last checkpoint, and the bytes that the machine sends from there on up to a count.
///
/// `Past::draft` begins one, and `Past::record` adds checkpoints. The recording is whole after each of them.
#[derive(Drop)]
pub struct Draft {
    /// The recording.
    pub recording: Recording,
    /// The count up to which the bytes are known: that of the last checkpoint, or a later one.
    pub at: u64,
    /// The bytes sent since the last checkpoint.
    pub sent: Vec<u8>,
}

/// The draft that a call returns.
#[derive(Drop)]
pub enum Drafted {
    /// It has the checkpoint.
    Done(Draft),
    /// The budget is spent. Ask again with this draft to go on.
    More(Draft),
}
