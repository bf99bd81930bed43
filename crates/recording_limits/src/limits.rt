//! The limits. All are this project's own choice.

/// The most bytes of output that a recording may have in all.
pub const MAX_OUTPUT: u64 = 1_048_576;

/// The largest number of pages in a pool.
pub const MAX_PAGES: u32 = 65_536;

/// The largest number of inputs of a session, and of a recording in a version without a disk.
pub const MAX_EVENTS: u32 = 1_000_000;

/// The largest number of inputs of a recording with a disk, whose answers are inputs.
pub const MAX_EVENTS_WITH_DISK: u32 = 4_000_000;

/// The largest number of a checkpoint. Checkpoints are numbered from 0.
pub const LAST_CHECKPOINT: u32 = 4_096;

/// The longest file of a session, in bytes.
pub const LONGEST_SESSION: usize = 67_108_864;
