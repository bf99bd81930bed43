//! Which versions of the file format a call takes, and the recording of a file in one of them.

use oberon_format::{
    Fault, Recording, migrate, migrate_with_disk, read, read_with_disk, write, write_with_disk,
};
use std::alloc::{AllocError, Global};

/// The versions of the file format that a call takes.
#[derive(Clone, Copy, Debug, PartialEq, Eq)]
pub enum Versions {
    /// Versions 1 and 2, of a machine without a disk. A file of version 3 is refused for its version.
    WithoutDisk,
    /// Versions 1, 2 and 3, the last of which may have answers of a disk.
    WithDisk,
}

impl Versions {
    ghost use Rattle.std.specs.Prelude.{◌≡◌, IfOk};
    ghost use Rattle.oberon_format.specs.Text.{IsEncoding, IsPlain};
    ghost use Rattle.oberon_check.specs.Versions.{AnswersBytesIn, IsMigratedIn, TextIn, last_version};

    /// Returns the recording of a file in one of these versions, or its first fault. Returns `Memory` only for a file without a fault.
    pub fn read(self, alloc: Global, bytes: &[u8]) -> Result<Recording, Fault>
        ensures { AnswersBytesIn self bytes.now (TextIn self bytes.now) result }
    {
        match self {
            Versions::WithoutDisk => read(alloc, bytes),
            Versions::WithDisk => read_with_disk(alloc, bytes),
        }
    }

    /// Returns the file in the last of these versions of the same recording, or the first fault of the bytes. Returns `Memory` only for a
    /// file without a fault.
    pub fn migrate(self, alloc: Global, bytes: &[u8]) -> Result<Vec<u8>, Fault>
        ensures { AnswersBytesIn self bytes.now (λ migrated. IsMigratedIn self bytes.now migrated.items) result }
    {
        match self {
            Versions::WithoutDisk => migrate(alloc, bytes),
            Versions::WithDisk => migrate_with_disk(alloc, bytes),
        }
    }

    /// Returns the file of a recording in the last of these versions. Without a disk the recording must have none.
    pub fn write(self, alloc: Global, r: &Recording) -> Result<Vec<u8>, AllocError>
        requires { self ≡ Versions.WithoutDisk → IsPlain r.now }
        ensures { IfOk result (λ bytes. IsEncoding (last_version self) bytes.items r.now) }
    {
        match self {
            Versions::WithoutDisk => write(alloc, r),
            Versions::WithDisk => write_with_disk(alloc, r),
        }
    }
}
