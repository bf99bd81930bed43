//! A recording in a later version of the format. The recording is not replayed.
ghost use Rattle.std.specs.Prelude.{IfOk};
ghost use Rattle.oberon_answers.specs.Migrate.{IsMigration, IsMigrationIn, IsMigrationOfAny};

use crate::answer::{Answer, refused};
use oberon_check::Versions;
use oberon_format::Fault;
use std::alloc::{AllocError, Global};

/// Returns the same recording in version 2, or the line of the first rule that the bytes break.
pub fn migrate(alloc: Global, bytes: &[u8]) -> Result<Answer, AllocError>
    ensures { IfOk result (λ answer. IsMigration bytes.now answer.bytes.items answer.status) }
{
    migrate_in(alloc, Versions::WithoutDisk, bytes)
}

/// Returns the same recording in the last of these versions, or the line of the first rule that the bytes break.
pub fn migrate_in(alloc: Global, versions: Versions, bytes: &[u8]) -> Result<Answer, AllocError>
    ensures { IfOk result (λ answer. IsMigrationIn versions bytes.now answer.bytes.items answer.status) }
{
    match versions.migrate(alloc, bytes) {
        Ok(bytes) => Ok(Answer { bytes, status: 0 }),
        Err(Fault::Memory) => Err(AllocError),
        Err(fault) => refused(alloc, &fault),
    }
}

/// Returns the same recording in version 3, if the bytes have that version, and else in version 2; or the line of the first rule that
/// the bytes break.
pub fn migrate_any(alloc: Global, bytes: &[u8]) -> Result<Answer, AllocError>
    ensures { IfOk result (λ answer. IsMigrationOfAny bytes.now answer.bytes.items answer.status) }
{
    match oberon_format::migrate(alloc, bytes) {
        Ok(file) => Ok(Answer {
            bytes: file,
            status: 0,
        }),
        Err(Fault::Memory) => Err(AllocError),
        Err(_) => migrate_in(alloc, Versions::WithDisk, bytes),
    }
}
