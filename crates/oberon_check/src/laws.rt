//! The laws of this crate's definitions, each the contract of a function that does nothing.
ghost use Rattle.oberon_check.specs.Laws.{FirstDifference, NoDifference, OneLine, OneVerdict, RefusedWithoutDisk, SameLine, SameLineWithDisk};

use oberon_format::{file_or_fault_law, file_or_fault_with_disk_law, one_recording_with_disk_law};

/// The first part in which two outcomes differ is the first one whose test fails, and a checkpoint is true exactly if no
/// part differs.
pub const fn difference_law()
    ensures first { FirstDifference }
    ensures none { NoDifference }
{}

/// A lawful recording, with or without a disk, has exactly one verdict.
pub const fn verdict_law()
    ensures { OneVerdict }
{}

/// Any bytes have exactly one verdict line with one status, with a disk and without.
pub fn line_law()
    ensures { OneLine }
{
    one_recording_with_disk_law();
    file_or_fault_law();
    file_or_fault_with_disk_law();
}

/// The line and the status of migrated bytes are those of the original bytes, with a disk and without.
pub fn migration_law()
    ensures { SameLine }
{
    one_recording_with_disk_law();
    file_or_fault_law();
    file_or_fault_with_disk_law();
}

/// Bytes of any version but 3 have the same line with a disk as without, and a text of version 3 is refused without.
pub fn versions_law()
    ensures same { SameLineWithDisk }
    ensures refused { RefusedWithoutDisk }
{
    file_or_fault_with_disk_law();
}
