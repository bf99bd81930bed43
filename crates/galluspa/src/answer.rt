//! The answers of `oberon_answers`, to a check, a session and a migration, in the memory of a caller.
ghost use Rattle.std.specs.Prelude.{◌≡◌, ◌<◌, ◌≤◌, drop, length, take, vec_len};
ghost use Rattle.oberon_answers.specs.Migrate.{IsMigrationOfAny};
ghost use Rattle.oberon_answers.specs.Record.{IsRecordOfAny};
ghost use Rattle.oberon_check.specs.HeadlineWithDisk.{IsLineOfWithDisk};
ghost use Rattle.galluspa.specs.Room.{IsAnswer, NeedsRoom};

use crate::front::copy_to_front;
use crate::refusal::NO_ANSWER;
use oberon_answers::{Answer, check_in, migrate_any, record_any};
use oberon_check::Versions;
use std::alloc::Global;

/// Writes an answer if there is room. No answer is empty: its length, 0, would be reported as out of memory.
fn put(answer: &Answer, out: &mut [u8], status: &mut u8) -> usize
    ensures len { result ≡ vec_len answer.now.bytes }
    ensures bytes { 0 < result → result ≤ length out.old → take result out.new ≡ answer.now.bytes.items }
    ensures rest { drop result out.new ≡ drop result out.old }
    ensures status { 0 < result → result ≤ length out.old → status.new ≡ answer.now.status }
    ensures no_room { length out.old < result → (out.new ≡ out.old) × (status.new ≡ status.old) }
    ensures empty { result ≡ 0 → (out.new ≡ out.old) × (status.new ≡ status.old) }
{
    let len = answer.bytes.len();
    if len > 0 && len <= out.len() {
        copy_to_front(&answer.bytes, out);
        *status = answer.status;
    }
    len
}

/// Checks a recording: writes its verdict line, with the line feed, to the front of `line`, and to `status` 0 if it is accepted,
/// 1 if it is false and 2 if the bytes are not a recording. The line and the status are those of the program. What is after the
/// line stays as it was. A recording of any version is checked, by the theorem for the machine with a disk.
///
/// Returns the length of the line, which is below 256. If that is more than `line` has room for, nothing is written. Returns 0
/// (`NO_ANSWER`) if memory ran out; nothing is written then, either.
#[unsafe(no_mangle)]
pub extern "C" fn galluspa_check(
    alloc: Global,
    recording: &[u8],
    line: &mut [u8],
    status: &mut u8,
) -> usize
    ensures line { 0 < result → result ≤ length line.old → IsLineOfWithDisk recording.now (take result line.new) status.new }
    ensures rest { drop result line.new ≡ drop result line.old }
    ensures short { result < 256 }
    ensures needed { length line.old < result → NeedsRoom (IsAnswer (IsLineOfWithDisk recording.now)) (length line.old) result }
    ensures no_room { length line.old < result → (line.new ≡ line.old) × (status.new ≡ status.old) }
    ensures no_memory { result ≡ 0 → (line.new ≡ line.old) × (status.new ≡ status.old) }
{
    match check_in(alloc, Versions::WithDisk, recording) {
        Ok(answer) => put(&answer, line, status),
        Err(_) => NO_ANSWER,
    }
}

/// Records a session: writes its recording to the front of `out`, and status 0; or the line of the refusal, and status 2. The
/// recording of a session of version 1 or 2 has version 2, and that of one of version 3 has version 3.
///
/// Returns the length of what is written, as `galluspa_check` does.
#[unsafe(no_mangle)]
pub extern "C" fn galluspa_record(
    alloc: Global,
    session: &[u8],
    out: &mut [u8],
    status: &mut u8,
) -> usize
    ensures recording { 0 < result → result ≤ length out.old → IsRecordOfAny session.now (take result out.new) status.new }
    ensures rest { drop result out.new ≡ drop result out.old }
    ensures needed { length out.old < result → NeedsRoom (IsAnswer (IsRecordOfAny session.now)) (length out.old) result }
    ensures no_room { length out.old < result → (out.new ≡ out.old) × (status.new ≡ status.old) }
    ensures no_memory { result ≡ 0 → (out.new ≡ out.old) × (status.new ≡ status.old) }
{
    match record_any(alloc, session) {
        Ok(answer) => put(&answer, out, status),
        Err(_) => NO_ANSWER,
    }
}

/// Migrates a recording: writes it to the front of `out`, and status 0, in version 2 if it has version 1 or 2, and else in version 3; or
/// the line of the first rule that the bytes break, and status 2. The recording isn't replayed.
///
/// Returns the length of what is written, as `galluspa_check` does.
#[unsafe(no_mangle)]
pub extern "C" fn galluspa_migrate(
    alloc: Global,
    recording: &[u8],
    out: &mut [u8],
    status: &mut u8,
) -> usize
    ensures migrated { 0 < result → result ≤ length out.old → IsMigrationOfAny recording.now (take result out.new) status.new }
    ensures rest { drop result out.new ≡ drop result out.old }
    ensures needed { length out.old < result → NeedsRoom (IsAnswer (IsMigrationOfAny recording.now)) (length out.old) result }
    ensures no_room { length out.old < result → (out.new ≡ out.old) × (status.new ≡ status.old) }
    ensures no_memory { result ≡ 0 → (out.new ≡ out.old) × (status.new ≡ status.old) }
{
    match migrate_any(alloc, recording) {
        Ok(answer) => put(&answer, out, status),
        Err(_) => NO_ANSWER,
    }
}
