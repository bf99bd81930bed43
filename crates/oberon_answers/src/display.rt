//! The screen that a checkpoint claims. The recording is not replayed.
ghost use Rattle.std.specs.Prelude.{◌≡◌, ◌<◌, length, IfOk};
ghost use Rattle.risc_devices.specs.Picture.{IsPicture};
ghost use Rattle.oberon_answers.specs.Screen.{IsScreen, IsScreenIn, IsScreenOf, display_of, missing_line};

use crate::answer::{Answer, refused};
use oberon_check::Versions;
use oberon_format::{Fault, Recording};
use risc_devices::picture;
use risc_pages::Memory;
use std::alloc::{AllocError, Global};

/// The number of the display's first word ("Project Oberon" 2013, the hardware chapters).
const DISPLAY_AT: u32 = 237_504;

/// The number of words of the display: 768 lines of 32.
const DISPLAY_WORDS: u32 = 24_576;

/// Returns the picture of the display in the memory that checkpoint `at` of a recording claims.
///
/// For bytes that are not a recording, returns the line of the first rule that they break; `at` has no effect on it. For a
/// recording with no such checkpoint, returns the line `no checkpoint` with `at`.
pub fn screen(alloc: Global, bytes: &[u8], at: u32) -> Result<Answer, AllocError>
    ensures { IfOk result (λ answer. IsScreen at bytes.now answer.bytes.items answer.status) }
{
    screen_in(alloc, Versions::WithoutDisk, bytes, at)
}

/// Returns that picture of a recording in one of these versions.
pub fn screen_in(
    alloc: Global,
    versions: Versions,
    bytes: &[u8],
    at: u32,
) -> Result<Answer, AllocError>
    ensures { IfOk result (λ answer. IsScreenIn versions at bytes.now answer.bytes.items answer.status) }
{
    match versions.read(alloc, bytes) {
        Ok(recording) => screen_of(alloc, &recording, at),
        Err(Fault::Memory) => Err(AllocError),
        Err(fault) => refused(alloc, &fault),
    }
}

/// Returns the picture, or the line `no checkpoint`.
fn screen_of(alloc: Global, recording: &Recording, at: u32) -> Result<Answer, AllocError>
    ensures { IfOk result (λ answer. IsScreenOf recording.now at answer.bytes.items answer.status) }
{
    if at < recording.count() {
        claimed_picture(alloc, recording, at)
    } else {
        no_checkpoint(alloc, at)
    }
}

/// Returns the picture of the display that a checkpoint claims.
fn claimed_picture(alloc: Global, recording: &Recording, at: u32) -> Result<Answer, AllocError>
    requires { at < length recording.now.checkpoints }
    ensures picture { IfOk result (λ answer. IsPicture (display_of recording.now at) answer.bytes.items) }
    ensures status { IfOk result (λ answer. answer.status ≡ 0) }
{
    let checkpoint = recording.checkpoint(at);
    let memory = Memory::from_table(alloc, recording.pool(), &checkpoint.table)?;
    let words = memory.words(alloc, DISPLAY_AT, DISPLAY_WORDS)?;
    let bytes = picture(alloc, &words)?;
    Ok(Answer { bytes, status: 0 })
}

/// Returns the line `no checkpoint`.
fn no_checkpoint(alloc: Global, at: u32) -> Result<Answer, AllocError>
    ensures bytes { IfOk result (λ answer. answer.bytes.items ≡ missing_line at) }
    ensures status { IfOk result (λ answer. answer.status ≡ 2) }
{
    let line = format!(in alloc; "no checkpoint {at}\n")?;
    Ok(Answer {
        bytes: line.into_bytes(),
        status: 2,
    })
}
