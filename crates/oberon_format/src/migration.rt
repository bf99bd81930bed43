//! Migration: the recording of a file, written again in version 2, or with a disk in version 3.

ghost use Rattle.oberon_format.specs.Migration.{IsMigrated, IsMigratedWithDisk};
ghost use Rattle.oberon_format.specs.ByteFields.{AnswersBytes, AnswersBytesWithDisk};

use crate::fault::Fault;
use crate::reading::{read, read_with_disk};
use crate::writing::{write, write_with_disk};
use std::alloc::Global;

/// Returns the file of the same recording in version 2, or the first fault of the file, which is `Version` in version 3. Returns
/// `Memory` only for a file without a fault, as `read` does.
pub fn migrate(alloc: Global, bytes: &[u8]) -> Result<Vec<u8>, Fault>
    // A file without a fault yields the file of its recording, or an allocation failed; any other yields its first fault.
    ensures { AnswersBytes bytes.now (λ migrated. IsMigrated bytes.now migrated.items) result }
{
    let recording = read(alloc, bytes)?;
    match write(alloc, &recording) {
        Ok(migrated) => Ok(migrated),
        Err(_) => Err(Fault::Memory),
    }
}

/// Returns the file of the same recording in version 3, or the first fault of the file. Returns `Memory` only for a file without a
/// fault, as `read_with_disk` does.
pub fn migrate_with_disk(alloc: Global, bytes: &[u8]) -> Result<Vec<u8>, Fault>
    // A file without a fault yields the file of its recording, or an allocation failed; any other yields its first fault.
    ensures { AnswersBytesWithDisk bytes.now (λ migrated. IsMigratedWithDisk bytes.now migrated.items) result }
{
    let recording = read_with_disk(alloc, bytes)?;
    match write_with_disk(alloc, &recording) {
        Ok(file) => Ok(file),
        Err(_) => Err(Fault::Memory),
    }
}
