//! Reads a session from its JSON.

ghost use Rattle.std.specs.Prelude.{◌≡◌, ◌<◌, IfOk, IfErr};
ghost use Rattle.risc_model.specs.MachineState.{cpu_state};
ghost use Rattle.oberon_session.specs.inner.Drafts.{draft_view, start_view};
ghost use Rattle.oberon_session.specs.Session.{Breaks, BreaksUpTo, BreaksWithDisk, Describes, IsSession, IsSessionUpTo, IsSessionWithDisk, cpu_of};
ghost use Rattle.oberon_session.specs.SessionParts.{IsPlain};
ghost use Rattle.oberon_session.specs.inner.Tested.{BreaksDraft, BreaksOf, InOrder, InRange, IsSessionOf, IsTested, StartFits};

use crate::SessionFault;
use crate::digits::placed_pages;
use crate::draft::{Draft, StartDraft};
use crate::events::inputs_of;
use crate::range::{is_in_range, is_rising};
use crate::session::Session;
use crate::shape::read_draft;
use json::Scratch;
use recording_limits::LONGEST_SESSION;
use risc_model::{Cpu, Flags, Inputs};
use std::alloc::Global;

/// Returns the session that the bytes encode, of a machine without a disk, or the first rule that they break.
///
/// The rules, in the order in which they are tested: there are at most `LONGEST_SESSION` bytes (`Range`), they are JSON (`Json`),
/// the JSON has the shape of a session of version 1 or 2 (`Shape`), and its numbers are in their ranges (`Range`); slots of pages and
/// counts of checkpoints rise, and counts of inputs don't fall (`Order`); and pages are pairs of hexadecimal digits (`Hex`). If memory
/// runs out, the answer is `Memory` instead, unless there are too many bytes.
///
/// No tree of JSON values is built. Beside the bytes it takes a buffer as long as they are, and the numbers of the session.
pub fn read_session(alloc: Global, bytes: &[u8]) -> Result<Session, SessionFault>
    ensures ok { IfOk result (IsSession bytes.now) }
    ensures err { IfErr result (Breaks bytes.now) }
    // The session is one of a machine without a disk.
    ensures plain { IfOk result IsPlain }
{
    read_up_to(alloc, 2, bytes)
}

/// Returns the session that the bytes encode, or the first rule that they break, as `read_session` does. Its version may also be 3,
/// that of a machine with a disk.
pub fn read_session_with_disk(alloc: Global, bytes: &[u8]) -> Result<Session, SessionFault>
    ensures ok { IfOk result (IsSessionWithDisk bytes.now) }
    ensures err { IfErr result (BreaksWithDisk bytes.now) }
{
    read_up_to(alloc, 3, bytes)
}

/// Returns the session that the bytes encode in one of the versions up to the newest, or the first rule that they break.
fn read_up_to(alloc: Global, newest: u64, bytes: &[u8]) -> Result<Session, SessionFault>
    ensures ok { IfOk result (IsSessionUpTo newest bytes.now) }
    ensures err { IfErr result (BreaksUpTo newest bytes.now) }
{
    if bytes.len() > LONGEST_SESSION {
        return Err(SessionFault::Range);
    }
    match std::str::from_utf8(bytes) {
        Ok(text) => session_in(alloc, newest, text),
        Err(_) => Err(SessionFault::Json),
    }
}

/// Returns the session that a text encodes in one of the versions up to the newest, or the first rule that the text breaks.
fn session_in(alloc: Global, newest: u64, text: &str) -> Result<Session, SessionFault>
    ensures ok { IfOk result (IsSessionOf newest text.now) }
    ensures err { IfErr result (BreaksOf newest text.now) }
{
    let mut scratch = Scratch::new(alloc);
    let draft = read_draft(alloc, text, &mut scratch)?;
    if draft.version > newest {
        return Err(SessionFault::Shape);
    }
    session_of(alloc, draft)
}

/// Returns the session of a draft, or the first rule that the draft breaks.
fn session_of(alloc: Global, draft: Draft<'_>) -> Result<Session, SessionFault>
    ensures range { IfOk result (λ _. InRange (draft_view draft.entry)) }
    ensures order { IfOk result (λ _. InOrder (draft_view draft.entry)) }
    ensures described { IfOk result (Describes (draft_view draft.entry)) }
    ensures err { IfErr result (BreaksDraft (draft_view draft.entry)) }
{
    let inputs = test_draft(alloc, &draft)?;
    let pages = placed_pages(alloc, &draft.pages)?;
    Ok(Session {
        cpu: cpu_of(&draft.start),
        rate: draft.start.rate as u32,
        phase: draft.start.phase as u32,
        disk: draft.start.disk as u32,
        pages,
        inputs,
        counts: draft.checkpoints,
    })
}

/// Returns the inputs of a draft whose numbers are all in their ranges and in order, or the first rule that it breaks.
fn test_draft(alloc: Global, draft: &Draft<'_>) -> Result<Inputs, SessionFault>
    ensures ok { IfOk result (IsTested (draft_view draft.now)) }
    ensures err { IfErr result (BreaksDraft (draft_view draft.now)) }
{
    if !is_in_range(draft) {
        return Err(SessionFault::Range);
    }
    let inputs = inputs_of(alloc, draft.version, &draft.inputs)?;
    if !is_rising(draft) {
        return Err(SessionFault::Order);
    }
    Ok(inputs)
}

fn cpu_of(start: &StartDraft) -> Cpu
    requires { StartFits (start_view start.now) }
    ensures { cpu_state result ≡ cpu_of (start_view start.now) }
{
    let mut r = [0; 16];
    for i in 0..16 {
        r[i] = start.registers[i] as u32;
    }
    Cpu {
        r,
        h: start.h as u32,
        pc: start.pc as u32,
        flags: Flags::from_number(start.flags as u32),
        stop: 0,
    }
}
