//! The laws of this crate's definitions, each the contract of a function that does nothing.
ghost use Rattle.oberon_shards.specs.Laws.{HasOneReading, HasShardLimits, IsComplete, IsOfOneFile};

use oberon_format::{file_or_fault_law, file_or_fault_with_disk_law, one_recording_with_disk_law};

/// States the limits of shards.
pub fn shard_limits_law()
    ensures { HasShardLimits }
{}

/// If all shards of a recording are there, none is missing.
pub fn complete_law()
    ensures { IsComplete }
{
    one_recording_with_disk_law();
    file_or_fault_law();
    file_or_fault_with_disk_law();
}

/// A line of a shard has one reading.
pub fn reading_law()
    ensures { HasOneReading }
{}

/// If files with one digest are one, shards with one digest are of one file.
pub fn one_file_law()
    ensures { IsOfOneFile }
{}
