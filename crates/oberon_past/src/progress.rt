//! How far a past was run on.

/// Why a run ended.
#[derive(Clone, Copy, Debug, PartialEq, Eq)]
pub enum Ending {
    /// It came to the count that was asked for.
    Done,
    /// The budget is spent, or it came to the count of a keyframe. Ask again to go on.
    More,
    /// The next instruction sends a byte for which there is no room.
    NoRoom,
}

/// How far a past was run on: `Past::extent` has the count that is its end now.
#[derive(Drop)]
pub struct Progress {
    /// The bytes that the machine sent on the way.
    pub sent: Vec<u8>,
    /// Why the run ended there.
    pub ending: Ending,
}
