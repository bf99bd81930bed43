//! The laws that join the calls of a caller into one run, and that of the numbers, each the contract of a function that does
//! nothing.
ghost use Rattle.galluspa.specs.Laws.{CountsLaw, FrameLaw, HasCodes, HitsJoinLaw, JoinLaw, RecordLaw};

/// A run with the inputs of its own counts alone is the run with all inputs, and sends the same bytes.
pub const fn frame_law()
    ensures { FrameLaw }
{}

/// Two runs, the second from the state in which the first ends, are one run with the inputs of both, and send the bytes of both.
pub const fn join_law()
    ensures { JoinLaw }
{}

/// The hits of two searches for all hits, the second from where the first ended, are those of one search, one after the other.
pub const fn hits_join_law()
    ensures { HitsJoinLaw }
{}

/// Counts of two runs, the second from the state in which the first ends, add up to those of the whole.
pub const fn counts_law()
    ensures { CountsLaw }
{}

/// A recording that begins with a state claims only what is true. One that claims only what is true, and is extended by the result
/// of a run from its last state, claims only what is true again. Each is accepted.
pub const fn record_law()
    ensures { RecordLaw }
{}

/// States each number that a caller gets by its value.
pub const fn codes_law()
    ensures { HasCodes }
{}
