//! Calls that are open in a run, and the counts at which they change. When a call is made and when it ends is in `specs/Calls.antt` and
//! `specs/Turns.antt`.

/// A call: a branch with link that is taken, to another word than the next one, and that returns from no open call. 24 bytes, which the
/// library for C passes on.
#[repr(C)]
#[derive(Clone, Copy)]
pub struct Call {
    /// The count of the branch.
    pub count: u64,
    /// The word number of the branch.
    pub at: u32,
    /// The word that it goes to.
    pub to: u32,
    /// The word after the branch, to which the call returns.
    pub back: u32,
    /// R14, the stack pointer, at the branch.
    pub sp: u32,
}

/// A change of the open calls by the instruction of a count.
#[derive(Clone, Copy)]
pub struct Turn {
    /// The count.
    pub count: u64,
    /// How many of the open calls stay open, the oldest ones.
    pub stay: u64,
    /// The call that is made, if any.
    pub call: Option<Call>,
}
