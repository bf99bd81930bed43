//! A recording of a past, in the memory of a caller: each of its checkpoints is true.
ghost use Rattle.std.specs.Prelude.{◌≡◌, ◌≢◌, ◌≤◌, ◌<◌, ◌⊎◌, ◌↔◌, ℕ, All, IfErr, IfOk, IsTrue, None, OnOk, drop, length, slice_index_or, take};
ghost use Rattle.oberon_format.specs.ByteFields.{first_fault_with_disk};
ghost use Rattle.oberon_past.specs.Draft.{IsDraftOf, IsRecordingOf, draft_in};
ghost use Rattle.oberon_past.specs.Past.{IsLonger};
ghost use Rattle.oberon_past.specs.declared.draft_fault.DraftFault.{DraftFault};
ghost use Rattle.galluspa.specs.Claim.{IsNoRecording};
ghost use Rattle.galluspa.specs.Drafts.{AreInside, HasCheckpoints, HasDraftFault, HasRecorded, IsFirst, IsRecordQuestion};
ghost use Rattle.galluspa.specs.Extend.{IsFile};
ghost use Rattle.galluspa.specs.Past.{Holds, HoldsBoth, IsClosed, Keeps};
ghost use Rattle.galluspa.specs.Room.{NeedsRoom};
ghost use Rattle.galluspa.specs.inner.Drafting.{HasFault, IsAsked, IsMisdrafted, IsOneMore, IsUnasked, IsUndrafted, IsUnread, LeavesKeyframe, code_of, refusal_of};

use crate::extend::put;
use crate::refusal::{
    CLOSED, DONE, LATER, MORE, NO_RECORDING, NO_ROOM, OUT_OF_MEMORY, OUT_OF_RANGE,
    TOO_MANY_CHECKPOINTS, TOO_MANY_INPUTS, TOO_MANY_PAGES, TOO_MUCH_OUTPUT,
};
use crate::sealed::RawPast;
use oberon_format::{Fault, read_with_disk, write};
use oberon_past::{Draft, DraftFault, Drafted, Past, Steps};
use std::alloc::Global;

/// Why a past is not recorded.
#[derive(Clone, Copy)]
pub(crate) enum Undrafted {
    /// A number is out of its range, or a checkpoint does not come next.
    Range,
    /// A count is after the end.
    Later,
    /// The bytes are not a recording.
    NoRecording,
    /// There would be too many inputs.
    Inputs,
    /// There would be too many checkpoints.
    Checkpoints,
    /// Too many bytes would be sent.
    Output,
    /// There would be too many pages.
    Pages,
    /// An allocation failed.
    Memory,
}

impl Undrafted {
    /// Returns the number that a caller in C gets.
    fn code(self) -> u8
        ensures code { result ≡ code_of self }
    {
        match self {
            Undrafted::Range => OUT_OF_RANGE,
            Undrafted::Later => LATER,
            Undrafted::NoRecording => NO_RECORDING,
            Undrafted::Inputs => TOO_MANY_INPUTS,
            Undrafted::Checkpoints => TOO_MANY_CHECKPOINTS,
            Undrafted::Output => TOO_MUCH_OUTPUT,
            Undrafted::Pages => TOO_MANY_PAGES,
            Undrafted::Memory => OUT_OF_MEMORY,
        }
    }
}

/// A draft with the checkpoints of the first `recorded` counts of a caller.
#[derive(Drop)]
struct Made {
    draft: Draft,
    recorded: usize,
}

/// The bytes of such a draft's recording.
#[derive(Drop)]
struct Encoded {
    bytes: Vec<u8>,
    recorded: usize,
}

/// Returns the refusal for a fault of a draft.
fn refusal_of(fault: DraftFault) -> Undrafted
    ensures { result ≡ refusal_of fault }
{
    match fault {
        DraftFault::Start => Undrafted::Range,
        DraftFault::Later => Undrafted::Later,
        DraftFault::Order => Undrafted::Range,
        DraftFault::Inputs => Undrafted::Inputs,
        DraftFault::Checkpoints => Undrafted::Checkpoints,
        DraftFault::Output => Undrafted::Output,
        DraftFault::Pages => Undrafted::Pages,
        DraftFault::Memory => Undrafted::Memory,
    }
}

/// Reports whether no count is after the end.
fn are_inside(counts: &[u64], end: u64) -> bool
    ensures { IsTrue result ↔ All (λ n. n ≤ end) counts.now }
{
    counts.iter().all(|count| *count <= end)
}

/// Returns the budget, if all that is asked is in its range, and no count is after the end. Allocates nothing.
fn asked(past: &Past, counts: &[u64], recorded: usize, budget: u64) -> Result<Steps, Undrafted>
    ensures question { OnOk result (IsRecordQuestion (length counts.now) recorded budget past.now) }
    ensures inside { OnOk result (AreInside counts.now past.now) }
    ensures refused { IfErr result (IsUnasked past.now counts.now recorded budget) }
{
    let extent = past.extent();
    if recorded > counts.len() || extent.first != 0 {
        return Err(Undrafted::Range);
    }
    let Some(steps) = Steps::new(budget) else {
        return Err(Undrafted::Range);
    };
    if !are_inside(counts, extent.end) {
        return Err(Undrafted::Later);
    }
    Ok(steps)
}

/// Reads the recording that is gone on with; or begins one, if there are no bytes.
fn first_draft(alloc: Global, past: &Past, text: &[u8]) -> Result<Draft, Undrafted>
    requires starts { past.now.run.start ≡ 0 }
    ensures first { IfOk result (λ draft. IsFirst past.now.run text.now draft.recording) }
    ensures draft { IfOk result (λ draft. IsRecordingOf past.now.run draft.recording → IsDraftOf past.now.run draft) }
    ensures valid { OnOk result ((length text.now ≡ 0) ⊎ (first_fault_with_disk text.now ≡ None)) }
    ensures refused { IfErr result (IsUnread text.now) }
{
    if text.len() == 0 {
        return match past.draft(alloc) {
            Ok(draft) => Ok(draft),
            Err(DraftFault::Memory) => Err(Undrafted::Memory),
            Err(_) => unreachable!(),
        };
    }
    let recording = match read_with_disk(alloc, text) {
        Ok(recording) => recording,
        Err(Fault::Memory) => return Err(Undrafted::Memory),
        Err(_) => return Err(Undrafted::NoRecording),
    };
    let at = recording.checkpoint(recording.count() - 1).count;
    Ok(Draft {
        recording,
        at,
        sent: Vec::new(alloc),
    })
}

/// Adds a checkpoint to a draft. It runs on, whatever the budget, unless it added a keyframe.
fn one_more(
    alloc: Global,
    past: &mut Past,
    draft: Draft,
    count: u64,
    budget: Steps,
) -> Result<Drafted, DraftFault>
    ensures truth { IsDraftOf past.old.run draft → IfOk result (λ drafted. IsDraftOf past.old.run (draft_in drafted)) }
    ensures more { IfOk result (IsOneMore draft.recording count) }
    ensures advances { IfOk result (LeavesKeyframe past.old past.new) }
    ensures refused { IfErr result (HasFault past.old draft count) }
    ensures longer { IsLonger past.old past.new }
{
    let mut draft = draft;
    while draft.at < count {
        let at = draft.at;
        let next = match past.record(alloc, draft, count, budget)? {
            Drafted::Done(next) => return Ok(Drafted::Done(next)),
            Drafted::More(next) => next,
        };
        if next.at == at {
            return Ok(Drafted::More(next));
        }
        draft = next;
    }
    past.record(alloc, draft, count, budget)
}

/// Adds a checkpoint to a draft at each count from that with the index `recorded` on, until the budget is spent.
fn all_more(
    alloc: Global,
    past: &mut Past,
    draft: Draft,
    counts: &[u64],
    recorded: usize,
    budget: Steps,
) -> Result<Made, DraftFault>
    requires inside { recorded ≤ length counts.now }
    ensures inside { IfOk result (λ made. (recorded ≤ made.recorded) × (made.recorded ≤ length counts.now)) }
    ensures checkpoints { IfOk result (λ made. HasCheckpoints draft.recording counts.now recorded made.recorded made.draft.recording) }
    ensures truth { IsDraftOf past.old.run draft → IfOk result (λ made. IsDraftOf past.old.run made.draft) }
    ensures advances { IfOk result (λ made. made.recorded ≢ length counts.now →
        (past.old.keyframes < past.new.keyframes) ⊎ (recorded < made.recorded)) }
    ensures refused { IfErr result (IsMisdrafted past.old draft counts.now recorded) }
    ensures longer { IsLonger past.old past.new }
{
    let mut draft = draft;
    let mut index = recorded;
    let mut left = budget.count;
    while index < counts.len() {
        let Some(steps) = Steps::new(left) else {
            return Ok(Made {
                draft,
                recorded: index,
            });
        };
        let from = draft.at;
        let count = counts[index];
        let next = match one_more(alloc, past, draft, count, steps)? {
            Drafted::Done(next) => next,
            Drafted::More(next) => {
                return Ok(Made {
                    draft: next,
                    recorded: index,
                });
            }
        };
        draft = next;
        left = left.saturating_sub(count.saturating_sub(from));
        index += 1;
    }
    Ok(Made {
        draft,
        recorded: index,
    })
}

/// Records a past, as `galluspa_past_record` does. All that needs no memory is tested before memory is asked for.
fn record_in(
    alloc: Global,
    past: &mut Past,
    text: &[u8],
    counts: &[u64],
    recorded: usize,
    budget: u64,
) -> Result<Encoded, Undrafted>
    ensures recorded { IfOk result (λ it. HasRecorded past.old.run text.now counts.now recorded it.recorded it.bytes.items) }
    ensures inside { IfOk result (λ it. (recorded ≤ it.recorded) × (it.recorded ≤ length counts.now)) }
    ensures advances { IfOk result (λ it. it.recorded ≢ length counts.now →
        (past.old.keyframes < past.new.keyframes) ⊎ (recorded < it.recorded)) }
    ensures asked { OnOk result (IsAsked past.old counts.now recorded budget) }
    ensures refused { IfErr result (IsUndrafted past.old text.now counts.now recorded budget) }
    ensures unmoved { IfErr result (λ refusal. (refusal ≡ Undrafted.Later) ⊎ (refusal ≡ Undrafted.NoRecording) → past.new ≡ past.old) }
    ensures longer { IsLonger past.old past.new }
{
    let steps = asked(past, counts, recorded, budget)?;
    let draft = first_draft(alloc, past, text)?;
    let made = match all_more(alloc, past, draft, counts, recorded, steps) {
        Ok(made) => made,
        Err(fault) => return Err(refusal_of(fault)),
    };
    match write(alloc, &made.draft.recording) {
        Ok(bytes) => Ok(Encoded {
            bytes,
            recorded: made.recorded,
        }),
        Err(_) => Err(Undrafted::Memory),
    }
}

/// Makes a recording of a past: goes on with `recording`, whose file the bytes are, or begins one with the first state if there are no
/// bytes; adds a checkpoint at each of `counts`, from that with the index `recorded` on; and writes its file to the front of `out`,
/// its length to `out_count`, and the number of `counts` to `recorded`. Returns 0 (`DONE`). What is after the file stays as it was.
///
/// If the budget is spent, the result is 12 (`MORE`), and the same is written, with the index of the first count that has no
/// checkpoint. A call with the file in place of `recording` goes on from there. A recording that begins here, and is gone on with here, is
/// of the run: each checkpoint is true, and a check accepts it.
///
/// Otherwise nothing is written but at 2 (`NO_ROOM`), if `out` has no room for the file, its length to `out_count`. The result is 13
/// (`CLOSED`) if no past is open; 1 (`OUT_OF_RANGE`) if the past begins after count 0, the budget is 0, `recorded` is above the number of
/// counts, or a count is not above that of the checkpoint before or is above 2^40; 14 (`LATER`) if a count is after the end; 4
/// (`NO_RECORDING`) if the bytes are not a recording; 6 to 9 if the recording would have too many inputs, checkpoints, bytes or pages; and 3
/// (`OUT_OF_MEMORY`) if memory ran out. The past stays open, of the same run.
#[unsafe(no_mangle)]
pub extern "C" fn galluspa_past_record(
    alloc: Global,
    past: &mut RawPast,
    recording: &[u8],
    counts: &[u64],
    recorded: &mut usize,
    budget: u64,
    out: &mut [u8],
    out_count: &mut usize,
) -> u8
    ensures recorded { (result ≡ DONE) ⊎ (result ≡ MORE) →
        Holds (λ p. HasRecorded p.run recording.now counts.now recorded.old recorded.new (take out_count.new out.new)) past.old }
    ensures room { (result ≡ DONE) ⊎ (result ≡ MORE) → out_count.new ≤ length out.old }
    ensures whole { result ≡ DONE → recorded.new ≡ length counts.now }
    ensures part { result ≡ MORE → (recorded.old ≤ recorded.new) × (recorded.new < length counts.now) }
    ensures advances { result ≡ MORE →
        HoldsBoth (λ old new. (old.keyframes < new.keyframes) ⊎ (recorded.old < recorded.new)) past.old past.new }
    ensures rest { drop out_count.new out.new ≡ drop out_count.new out.old }
    ensures no_room { result ≡ NO_ROOM →
        Holds (λ p. (to : ℕ) × NeedsRoom (HasRecorded p.run recording.now counts.now recorded.old to) (length out.old) out_count.new) past.old }
    ensures unchanged { result ≢ DONE → result ≢ MORE → (out.new ≡ out.old) × (recorded.new ≡ recorded.old) }
    ensures uncounted { result ≢ DONE → result ≢ MORE → result ≢ NO_ROOM → out_count.new ≡ out_count.old }
    ensures closed { result ≡ CLOSED ↔ IsClosed past.old }
    ensures range { result ≡ OUT_OF_RANGE →
        Holds (λ p. ¬ (IsRecordQuestion (length counts.now) recorded.old budget p)
        ⊎ HasDraftFault p recording.now counts.now recorded.old DraftFault.Order) past.old }
    ensures question { result ≢ CLOSED → result ≢ OUT_OF_RANGE →
        Holds (IsRecordQuestion (length counts.now) recorded.old budget) past.old }
    ensures later { result ≡ LATER → Holds (λ p. ¬ (AreInside counts.now p)) past.old }
    ensures inside { result ≢ CLOSED → result ≢ OUT_OF_RANGE → result ≢ LATER → Holds (AreInside counts.now) past.old }
    ensures no_recording { result ≡ NO_RECORDING → IsNoRecording recording.now }
    ensures memory { result ≡ OUT_OF_MEMORY → (length recording.now ≡ 0) ⊎ (first_fault_with_disk recording.now ≡ None) }
    ensures inputs { result ≡ TOO_MANY_INPUTS →
        Holds (λ p. HasDraftFault p recording.now counts.now recorded.old DraftFault.Inputs) past.old }
    ensures checkpoints { result ≡ TOO_MANY_CHECKPOINTS →
        Holds (λ p. HasDraftFault p recording.now counts.now recorded.old DraftFault.Checkpoints) past.old }
    ensures output { result ≡ TOO_MUCH_OUTPUT →
        Holds (λ p. HasDraftFault p recording.now counts.now recorded.old DraftFault.Output) past.old }
    ensures pages { result ≡ TOO_MANY_PAGES →
        Holds (λ p. HasDraftFault p recording.now counts.now recorded.old DraftFault.Pages) past.old }
    ensures longer { result ≢ CLOSED → HoldsBoth IsLonger past.old past.new }
    ensures unmoved { (result ≡ LATER) ⊎ (result ≡ NO_RECORDING) → Keeps past.old past.new }
    ensures kept { result ≡ CLOSED → past.new ≡ past.old }
    ensures codes { (result ≤ NO_RECORDING) ⊎ ((TOO_MANY_INPUTS ≤ result) × (result ≤ TOO_MANY_PAGES)) ⊎ ((MORE ≤ result) × (result ≤ LATER)) }
{
    let Some(mut here) = past.take(alloc) else {
        return CLOSED;
    };
    let made = record_in(alloc, &mut here, recording, counts, *recorded, budget);
    past.put(here);
    match made {
        Ok(made) => {
            if put(&made.bytes, out, out_count) == NO_ROOM {
                return NO_ROOM;
            }
            *recorded = made.recorded;
            if made.recorded < counts.len() {
                return MORE;
            }
            DONE
        }
        Err(refusal) => refusal.code(),
    }
}
