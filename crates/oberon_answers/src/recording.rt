//! The recording of a session.
ghost use Rattle.std.specs.Prelude.{◌≡◌, IfErr, IfOk};
ghost use Rattle.oberon_session.specs.SessionParts.{IsPlain};
ghost use Rattle.oberon_answers.specs.Record.{BreaksIn, IsRecord, IsRecordIn, IsRecordOfAny, IsRecordOfIn, IsRefusal, IsSessionIn};

use crate::answer::Answer;
use oberon_check::Versions;
use oberon_session::{Session, SessionFault, make_recording, read_session, read_session_with_disk};
use std::alloc::{AllocError, Global};

/// Returns the recording of the session that the bytes encode, of a machine without a disk.
///
/// For bytes that are not a session, returns the line `session refused` with the number and the name of the first rule that they
/// break. For a session whose recording would be too large, returns the line `record refused` with those of the recorder's fault.
pub fn record(alloc: Global, bytes: &[u8]) -> Result<Answer, AllocError>
    ensures { IfOk result (λ answer. IsRecord bytes.now answer.bytes.items answer.status) }
{
    record_in(alloc, Versions::WithoutDisk, bytes)
}

/// Returns that recording in the last of these versions. With a disk the session may have version 3, too.
pub fn record_in(alloc: Global, versions: Versions, bytes: &[u8]) -> Result<Answer, AllocError>
    ensures { IfOk result (λ answer. IsRecordIn versions bytes.now answer.bytes.items answer.status) }
{
    match session_in(alloc, versions, bytes) {
        Ok(session) => record_of(alloc, versions, &session),
        Err(fault) => refused_as(alloc, "session", fault.number(), fault.name()),
    }
}

/// Returns that recording in version 2 for a session of version 1 or 2, and in version 3 for one of version 3, which is read twice.
pub fn record_any(alloc: Global, bytes: &[u8]) -> Result<Answer, AllocError>
    ensures { IfOk result (λ answer. IsRecordOfAny bytes.now answer.bytes.items answer.status) }
{
    match read_session(alloc, bytes) {
        Ok(session) => record_of(alloc, Versions::WithoutDisk, &session),
        Err(SessionFault::Memory) => Err(AllocError),
        Err(_) => record_in(alloc, Versions::WithDisk, bytes),
    }
}

fn session_in(alloc: Global, versions: Versions, bytes: &[u8]) -> Result<Session, SessionFault>
    ensures ok { IfOk result (IsSessionIn versions bytes.now) }
    ensures err { IfErr result (BreaksIn versions bytes.now) }
    ensures plain { versions ≡ Versions.WithoutDisk → IfOk result IsPlain }
{
    match versions {
        Versions::WithoutDisk => read_session(alloc, bytes),
        Versions::WithDisk => read_session_with_disk(alloc, bytes),
    }
}

/// Returns the recording of a session in the last of these versions, or the line `record refused`.
fn record_of(alloc: Global, versions: Versions, session: &Session) -> Result<Answer, AllocError>
    requires { versions ≡ Versions.WithoutDisk → IsPlain session.now }
    ensures { IfOk result (λ answer. IsRecordOfIn versions session.now answer.bytes.items answer.status) }
{
    match make_recording(alloc, session) {
        Ok(recording) => {
            let bytes = versions.write(alloc, &recording)?;
            Ok(Answer { bytes, status: 0 })
        }
        Err(fault) => refused_as(alloc, "record", fault.number(), fault.name()),
    }
}

/// Returns the line of a fault. A fault without a number means that memory ran out.
fn refused_as(
    alloc: Global,
    what: &str,
    number: Option<u8>,
    name: &str,
) -> Result<Answer, AllocError>
    ensures { IfOk result (λ answer. IsRefusal what.now number name.now answer.bytes.items answer.status) }
{
    match number {
        Some(number) => {
            let line = format!(in alloc; "{what} refused {number} {name}\n")?;
            Ok(Answer {
                bytes: line.into_bytes(),
                status: 2,
            })
        }
        None => Err(AllocError),
    }
}
