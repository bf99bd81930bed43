//! The check of a recording by its past, call by call, in the memory of a caller.
ghost use Rattle.std.specs.Prelude.{◌≡◌, ◌≢◌, ◌≤◌, ◌<◌, ◌⊎◌, ◌↔◌, IfErr, IfOk, None, OnOk, Some, drop, false, length, take, true};
ghost use Rattle.oberon_check.specs.HeadlineWithDisk.{IsLineOfWithDisk};
ghost use Rattle.oberon_format.specs.ByteFields.{first_fault_with_disk};
ghost use Rattle.oberon_format.specs.Text.{TextWithDisk};
ghost use Rattle.oberon_format.specs.Recording.{RecordingParts};
ghost use Rattle.oberon_check.specs.Line.{line_of, status_of};
ghost use Rattle.oberon_past.specs.Check.{IsCheckable, IsTrueProgress};
ghost use Rattle.oberon_past.specs.Past.{IsLonger};
ghost use Rattle.galluspa.specs.Claim.{IsNoRecording};
ghost use Rattle.galluspa.specs.Past.{Holds, HoldsBoth, IsClosed, Keeps};
ghost use Rattle.galluspa.specs.PastCheck.{CanCheck, ComesFurther, EndsLater, IsOfAnother, IsTrueIn, progress_of};
ghost use Rattle.galluspa.specs.Room.{IsAnswer, NeedsRoom};
ghost use Rattle.galluspa.specs.inner.Checking.{IsReply, IsUnchecked, LeavesReply};

use crate::front::copy_to_front;
use crate::refusal::{
    CLOSED, DONE, LATER, MORE, NO_RECORDING, NO_ROOM, OUT_OF_MEMORY, OUT_OF_RANGE,
};
use crate::sealed::RawPast;
use oberon_answers::Answer;
use oberon_check::Verdict;
use oberon_format::{Fault, Recording, read_with_disk};
use oberon_past::{CheckFault, CheckProgress, Checked, Past, Steps};
use std::alloc::{AllocError, Global};

/// How far a check of a recording is: 24 bytes. All zeros stand for a check that is to begin.
#[repr(C)]
#[derive(Clone, Copy)]
pub struct RawProgress {
    /// The count up to which the bytes sent are compared.
    pub count: u64,
    /// The number of bytes sent up to there since the checkpoint before, if `differs` is 0.
    pub sent: u64,
    /// The checkpoints before this one are true. 0 if the check is to begin.
    pub checkpoint: u32,
    /// Not 0 if the bytes sent up to this checkpoint are not those that it claims.
    pub differs: u32,
}

/// Why a caller gets no answer from a check.
#[derive(Clone, Copy)]
pub(crate) enum Unchecked {
    /// The budget is 0, or the recording is of another run, or the progress is not one of it.
    Range,
    /// The recording ends after the past.
    Later,
    /// The bytes are not a recording.
    Recording,
    /// An allocation failed.
    Memory,
}

impl From<AllocError> for Unchecked {
    ghost use Rattle.std.specs.Prelude.{◌≡◌};
    ghost use Rattle.galluspa.specs.declared.past_check.Unchecked.{Unchecked};

    ghost from_gives = { λ _ refusal. refusal ≡ Unchecked.Memory };

    fn from(_failure: AllocError) -> Unchecked {
        Unchecked::Memory
    }
}

/// What a check says.
#[derive(Drop)]
pub(crate) enum Reply {
    /// The line of the verdict, with its status.
    Line(Answer),
    /// The budget is spent, and the check goes on from here.
    More(CheckProgress),
}

/// Returns how far a check is, or none if it is to begin.
fn progress_of(raw: &RawProgress) -> Option<CheckProgress>
    ensures { result ≡ progress_of raw.now }
{
    if raw.checkpoint == 0 {
        return None;
    }
    Some(CheckProgress {
        checkpoint: raw.checkpoint,
        count: raw.count,
        sent: if raw.differs == 0 {
            Some(raw.sent as usize)
        } else {
            None
        },
    })
}

/// Returns how far a check is in the layout of C.
fn raw_progress(progress: CheckProgress) -> RawProgress
    ensures { 0 < progress.checkpoint → progress_of result ≡ Some progress }
{
    let (sent, differs) = match progress.sent {
        Some(sent) => (sent as u64, 0),
        None => (0, 1),
    };
    RawProgress {
        count: progress.count,
        sent,
        checkpoint: progress.checkpoint,
        differs,
    }
}

/// Returns the line of a verdict, with its status.
fn answer_of(alloc: Global, verdict: &Verdict) -> Result<Answer, AllocError>
    ensures line { IfOk result (λ answer. answer.bytes.items ≡ line_of verdict.now) }
    ensures status { IfOk result (λ answer. answer.status ≡ status_of verdict.now) }
{
    Ok(Answer {
        bytes: verdict.line(alloc)?,
        status: verdict.status(),
    })
}

/// Checks a recording from a progress on.
fn reply_of(
    alloc: Global,
    past: &mut Past,
    recording: &Recording,
    progress: Option<CheckProgress>,
    budget: Steps,
) -> Result<Reply, Unchecked>
    ensures reply { IfOk result (IsReply recording.now progress) }
    ensures checkable { OnOk result (IsCheckable past.old recording.now progress) }
    ensures refused { IfErr result (IsUnchecked past.old recording.now progress) }
    ensures unmoved { IfErr result (λ why. why ≢ Unchecked.Memory → past.new ≡ past.old) }
    ensures longer { IsLonger past.old past.new }
    ensures advances { IfOk result (LeavesReply past.old past.new progress) }
{
    match past.check(alloc, recording, progress, budget)? {
        Checked::Done(verdict) => Ok(Reply::Line(answer_of(alloc, &verdict)?)),
        Checked::More(next) => Ok(Reply::More(next)),
        Checked::Refused(CheckFault::Later) => Err(Unchecked::Later),
        Checked::Refused(CheckFault::Progress) => Err(Unchecked::Range),
        Checked::Refused(CheckFault::OtherRun) => Err(Unchecked::Range),
    }
}

/// Checks the recording that the bytes are, as `galluspa_past_check` does.
fn check_text(
    alloc: Global,
    past: &mut Past,
    text: &[u8],
    budget: u64,
    progress: &RawProgress,
) -> Result<Reply, Unchecked>
    ensures line { IfOk result (λ reply. (answer : Answer) → reply ≡ Reply.Line answer → IsTrueIn text.now progress.now →
        IsLineOfWithDisk text.now answer.bytes.items answer.status) }
    ensures more { IfOk result (λ reply. (next : CheckProgress) → reply ≡ Reply.More next → 0 < next.checkpoint
        × (IsTrueIn text.now progress.now → (r : RecordingParts) → TextWithDisk text.now r → IsTrueProgress r next)) }
    ensures checkable { OnOk result (CanCheck text.now progress.now past.old) }
    ensures budget { OnOk result (0 < budget) }
    ensures later { IfErr result (λ why. why ≡ Unchecked.Later → (0 < budget) × EndsLater text.now past.old) }
    ensures range { IfErr result (λ why. why ≡ Unchecked.Range → (budget ≡ 0) ⊎ IsOfAnother text.now progress.now past.old) }
    ensures recording { IfErr result (λ why. why ≡ Unchecked.Recording → (0 < budget) × IsNoRecording text.now) }
    ensures memory { IfErr result (λ why. why ≡ Unchecked.Memory → (0 < budget) × (first_fault_with_disk text.now ≡ None)) }
    ensures unmoved { IfErr result (λ why. why ≢ Unchecked.Memory → past.new ≡ past.old) }
    ensures longer { IsLonger past.old past.new }
    ensures advances { IfOk result (LeavesReply past.old past.new (progress_of progress.now)) }
{
    let Some(budget) = Steps::new(budget) else {
        return Err(Unchecked::Range);
    };
    match read_with_disk(alloc, text) {
        Ok(recording) => reply_of(alloc, past, &recording, progress_of(progress), budget),
        Err(Fault::Memory) => Err(Unchecked::Memory),
        Err(_) => Err(Unchecked::Recording),
    }
}

/// Writes the length of a line, and if there is room for it, the line and its status. Reports whether there is.
fn write_line(answer: &Answer, line: &mut [u8], line_count: &mut usize, status: &mut u8) -> bool
    ensures line { result ≡ true → take line_count.new line.new ≡ answer.now.bytes.items }
    ensures status { result ≡ true → status.new ≡ answer.now.status }
    ensures fits { result ≡ true → line_count.new ≤ length line.old }
    ensures rest { drop line_count.new line.new ≡ drop line_count.new line.old }
    ensures no_room { result ≡ false → length line.old < line_count.new }
    ensures unwritten { result ≡ false → (line.new ≡ line.old) × (status.new ≡ status.old) }
    ensures count { line_count.new ≡ length answer.now.bytes.items }
{
    *line_count = answer.bytes.len();
    if answer.bytes.len() > line.len() {
        return false;
    }
    copy_to_front(&answer.bytes, line);
    *status = answer.status;
    true
}

/// Checks the checkpoints of a recording by a past of the same run, in order: whether each is the state and the bytes sent that the
/// run gives. Returns 0 (`DONE`), and writes the verdict line of `galluspa_check` to the front of `line`, its length to
/// `line_count`, and 0 to `status` if the recording is accepted, or 1 if it is false.
///
/// The recording may be the one that was opened, or any other of the same run, such as one that was made of the past. Its initial
/// state and its inputs before its last checkpoint are compared with those of the past, each time. `progress` is all zeros at
/// first. If the budget is spent, the result is 12 (`MORE`), and how far the check is is written to `progress`: a call with it goes
/// on from there. So the verdict is that of `galluspa_check` if the progress is one that this call wrote for the same recording, or
/// zeros; whether a progress is true is not tested. The past runs on and adds keyframes as it needs them.
///
/// Nothing else is written, but the length of the line to `line_count` if the result is 2 (`NO_ROOM`), as `line` has no room for
/// it; 255 bytes are enough. Otherwise the result is 13 (`CLOSED`) if no past is open; 1 (`OUT_OF_RANGE`) if the budget is 0; 4
/// (`NO_RECORDING`) if the bytes are not a recording; 14 (`LATER`) if its last checkpoint is after the end of the past; 1 again if
/// it is of another run or the progress is not one of it; and then the past stays as it is. It is 3 (`OUT_OF_MEMORY`) if memory ran
/// out: then keyframes may have been added. The past stays open, of the same run.
#[unsafe(no_mangle)]
pub extern "C" fn galluspa_past_check(
    alloc: Global,
    past: &mut RawPast,
    recording: &[u8],
    budget: u64,
    progress: &mut RawProgress,
    line: &mut [u8],
    line_count: &mut usize,
    status: &mut u8,
) -> u8
    ensures verdict { result ≡ DONE → IsTrueIn recording.now progress.old →
        IsLineOfWithDisk recording.now (take line_count.new line.new) status.new }
    ensures fits { result ≡ DONE → line_count.new ≤ length line.old }
    ensures rest { result ≡ DONE → drop line_count.new line.new ≡ drop line_count.new line.old }
    ensures more { result ≡ MORE → IsTrueIn recording.now progress.old → IsTrueIn recording.now progress.new }
    ensures advances { result ≡ MORE → HoldsBoth (ComesFurther progress.old progress.new) past.old past.new }
    ensures no_room { result ≡ NO_ROOM → IsTrueIn recording.now progress.old →
        NeedsRoom (IsAnswer (IsLineOfWithDisk recording.now)) (length line.old) line_count.new }
    ensures unwritten { result ≢ DONE → (line.new ≡ line.old) × (status.new ≡ status.old) }
    ensures uncounted { result ≢ DONE → result ≢ NO_ROOM → line_count.new ≡ line_count.old }
    ensures unprogressed { result ≢ MORE → progress.new ≡ progress.old }
    ensures closed { result ≡ CLOSED ↔ IsClosed past.old }
    ensures checkable { (result ≡ DONE) ⊎ (result ≡ MORE) ⊎ (result ≡ NO_ROOM) →
        Holds (CanCheck recording.now progress.old) past.old }
    ensures budget { result ≢ CLOSED → result ≢ OUT_OF_RANGE → 0 < budget }
    ensures range { result ≡ OUT_OF_RANGE →
        (budget ≡ 0) ⊎ Holds (IsOfAnother recording.now progress.old) past.old }
    ensures later { result ≡ LATER → Holds (EndsLater recording.now) past.old }
    ensures no_recording { result ≡ NO_RECORDING → IsNoRecording recording.now }
    ensures memory { result ≡ OUT_OF_MEMORY → first_fault_with_disk recording.now ≡ None }
    ensures longer { result ≢ CLOSED → HoldsBoth IsLonger past.old past.new }
    ensures unmoved { (result ≡ OUT_OF_RANGE) ⊎ (result ≡ LATER) ⊎ (result ≡ NO_RECORDING) → Keeps past.old past.new }
    ensures kept { result ≡ CLOSED → past.new ≡ past.old }
    ensures codes { (result ≤ NO_RECORDING) ⊎ ((MORE ≤ result) × (result ≤ LATER)) }
{
    let Some(mut here) = past.take(alloc) else {
        return CLOSED;
    };
    let reply = check_text(alloc, &mut here, recording, budget, &*progress);
    past.put(here);
    match reply {
        Ok(Reply::Line(answer)) => {
            if !write_line(&answer, line, line_count, status) {
                return NO_ROOM;
            }
            DONE
        }
        Ok(Reply::More(next)) => {
            *progress = raw_progress(next);
            MORE
        }
        Err(Unchecked::Range) => OUT_OF_RANGE,
        Err(Unchecked::Later) => LATER,
        Err(Unchecked::Recording) => NO_RECORDING,
        Err(Unchecked::Memory) => OUT_OF_MEMORY,
    }
}
