//! The faults of a recording file. The rules, and the order in which they are tested, are in `specs/`.

use thiserror::Error;

/// The first broken rule of a recording file, with the offset of a byte; or an allocation failure.
///
/// The numbers 1 to 8 and the rules are this project's own choice.
#[derive(Clone, Copy, Debug, PartialEq, Eq, Error)]
pub enum Fault {
    /// 1: the file ends too early. The byte is its length.
    #[error("the recording ends too early, at byte {0}")]
    Short(u64),
    /// 2: the file does not begin with `ORSR`. The byte is 0.
    #[error("the bytes do not begin with ORSR, at byte {0}")]
    Magic(u64),
    /// 3: the version is neither 1 nor 2. The byte is 4.
    #[error("the version is not known, at byte {0}")]
    Version(u64),
    /// 4: a number of the header is out of its range. The byte is that number's offset.
    #[error("a number of the header is out of its range, at byte {0}")]
    Limit(u64),
    /// 5: an event is out of its ranges. The byte is the event's start.
    #[error("an event is out of its ranges, at byte {0}")]
    Event(u64),
    /// 6: a field of a checkpoint is out of its range. The byte is the checkpoint's start.
    #[error("a checkpoint is out of its ranges, at byte {0}")]
    Checkpoint(u64),
    /// 7: a page id of version 1 is not that of a page: the byte is its offset. Or a change of version 2 or 3 is not lawful: the byte
    /// is its start.
    #[error("a page id is out of its range, at byte {0}")]
    Page(u64),
    /// 8: there are bytes after the output. The byte is the first of them.
    #[error("there are bytes after the end of the recording, at byte {0}")]
    Trailing(u64),
    /// An allocation failed. This is no fault of the file.
    #[error("no memory")]
    Memory,
}
