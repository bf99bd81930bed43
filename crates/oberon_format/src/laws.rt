//! Laws of the format, over its definitions alone. Each is the contract of a function that does nothing.
//!
//! Those of recordings without a disk, and of files of versions 1 and 2, come first. Those with a disk are of all recordings and
//! files.

ghost use Rattle.oberon_format.specs.Numbers.{HasNumbers};
ghost use Rattle.oberon_format.specs.Laws.{HasOneRecording, HasOneFile, HasOneFileAtMost, HasReadBack, HasWrittenBack};
ghost use Rattle.oberon_format.specs.Laws.{IsMigratedOnce, HasFileOrFault, HasFaultOfParts, HasFileOfParts, HasNamedFault};
ghost use Rattle.oberon_format.specs.Laws.{HasLongestFile, HasFaultWithin, IsMadeOfParts};
ghost use Rattle.oberon_format.specs.Laws.{HasOneRecordingWithDisk, HasOneFileWithDisk, HasReadBackWithDisk, HasWrittenBackWithDisk};
ghost use Rattle.oberon_format.specs.Laws.{IsMigratedOnceWithDisk, HasFileOrFaultWithDisk, HasFaultOfPartsWithDisk, HasFileOfPartsWithDisk};
ghost use Rattle.oberon_format.specs.Laws.{HasNamedFaultWithDisk, HasLongestFileWithDisk, HasFaultWithinWithDisk, IsMadeOfPartsWithDisk};

/// States each length, offset and limit by its value.
pub fn numbers_law()
    ensures { HasNumbers }
{}

/// States that a file is that of at most one recording.
pub fn one_recording_law()
    ensures { HasOneRecording }
{}

/// States that a lawful recording has a file of version 2.
pub fn one_file_law()
    ensures { HasOneFile }
{}

/// States that a recording has at most one file of each version.
pub fn one_file_at_most_law()
    ensures { HasOneFileAtMost }
{}

/// States that reading what is written of a recording returns that recording: `read(write(r)) = r`.
pub fn read_back_law()
    ensures { HasReadBack }
{}

/// States that writing what was read of a file of version 2 returns that file: `write(read(t)) = t`.
pub fn written_back_law()
    ensures { HasWrittenBack }
{}

/// States that a migrated file is its own migration: `migrate(migrate(t)) = migrate(t)`.
pub fn migrated_again_law()
    ensures { IsMigratedOnce }
{}

/// States that each byte string has a recording or a first fault, and not both.
pub fn file_or_fault_law()
    ensures { HasFileOrFault }
{}

/// States that the first fault of a file is never an allocation failure.
pub fn named_fault_law()
    ensures { HasNamedFault }
{}

/// States that the file of a recording has at most `LONGEST_RECORDING` bytes.
pub fn longest_file_law()
    ensures { HasLongestFile }
{}

/// States that a file longer than `LONGEST_RECORDING` bytes has the same first fault if it is cut after them.
pub fn cut_file_law()
    ensures { HasFaultWithin }
{}

/// States that parts whose numbers fit their fields, lawful or not, have an encoding in bytes.
pub fn file_of_parts_law()
    ensures { HasFileOfParts }
{}

/// States that the encoding of parts whose numbers fit their fields, lawful or not, has the first fault of these parts.
pub fn fault_of_parts_law()
    ensures { HasFaultOfParts }
{}

/// States that parts are lawful if and only if they have no fault.
pub fn lawful_parts_law()
    ensures { IsMadeOfParts }
{}

/// States that a file of any version is that of at most one recording.
pub fn one_recording_with_disk_law()
    ensures { HasOneRecordingWithDisk }
{}

/// States that a lawful recording has a file of version 3.
pub fn one_file_with_disk_law()
    ensures { HasOneFileWithDisk }
{}

/// States that reading what is written of a recording, in any version, returns that recording.
pub fn read_back_with_disk_law()
    ensures { HasReadBackWithDisk }
{}

/// States that writing what was read of a file, in the version of that file, returns that file.
pub fn written_back_with_disk_law()
    ensures { HasWrittenBackWithDisk }
{}

/// States that a file migrated to version 3 is its own migration.
pub fn migrated_again_with_disk_law()
    ensures { IsMigratedOnceWithDisk }
{}

/// States that each byte string has a recording or a first fault with a disk, and not both.
pub fn file_or_fault_with_disk_law()
    ensures { HasFileOrFaultWithDisk }
{}

/// States that the first fault of a file with a disk is never an allocation failure.
pub fn named_fault_with_disk_law()
    ensures { HasNamedFaultWithDisk }
{}

/// States that the file of a recording in any version has at most `LONGEST_WITH_DISK` bytes.
pub fn longest_file_with_disk_law()
    ensures { HasLongestFileWithDisk }
{}

/// States that a file longer than `LONGEST_WITH_DISK` bytes has the same first fault with a disk if it is cut after them.
pub fn cut_file_with_disk_law()
    ensures { HasFaultWithinWithDisk }
{}

/// States that parts whose numbers fit their fields in version 3, lawful or not, have an encoding in bytes.
pub fn file_of_parts_with_disk_law()
    ensures { HasFileOfPartsWithDisk }
{}

/// States that the encoding in version 3 of parts whose numbers fit their fields, lawful or not, has the first fault of these
/// parts with a disk.
pub fn fault_of_parts_with_disk_law()
    ensures { HasFaultOfPartsWithDisk }
{}

/// States that parts are lawful with a disk if and only if they have no fault with one.
pub fn lawful_parts_with_disk_law()
    ensures { IsMadeOfPartsWithDisk }
{}
