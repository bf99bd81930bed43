//! What a past says of the checkpoints of a recording, and how far a check of them is.
use oberon_check::Verdict;

/// How far a check is: some checkpoints are true, and of the stretch before the next one a part has been run.
///
/// It is the claim of whoever passes it on: an answer holds if it is true.
#[derive(Clone, Copy, Debug, PartialEq, Eq)]
pub struct CheckProgress {
    /// The checkpoints before this one are true: at least 1.
    pub checkpoint: u32,
    /// The count up to which the bytes sent are compared: from that of the checkpoint before up to that of this one.
    pub count: u64,
    /// The number of bytes sent up to there since the checkpoint before, which are the first of those that this checkpoint claims.
    /// None if the bytes sent up to this checkpoint are not those that it claims.
    pub sent: Option<usize>,
}

/// Why the checkpoints of a recording are not checked.
#[derive(Clone, Copy, Debug, PartialEq, Eq)]
pub enum CheckFault {
    /// The last checkpoint is after the end of the past.
    Later,
    /// The recording has no such checkpoint, or the count or the number of bytes is not one of it.
    Progress,
    /// The recording has another initial state, or other inputs before its last checkpoint.
    OtherRun,
}

/// The result of a check of the checkpoints of a recording.
#[derive(Clone, Copy, Debug, PartialEq, Eq)]
pub enum Checked {
    /// The verdict on the recording.
    Done(Verdict),
    /// The budget is spent: ask again with this progress.
    More(CheckProgress),
    /// The recording is not one of the past, or the progress is not one of the recording.
    Refused(CheckFault),
}
