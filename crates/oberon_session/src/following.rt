//! What may follow the last checkpoint of a recording. Nothing here allocates memory.

ghost use Rattle.std.specs.Prelude.{◌≡◌, ◌≢◌, ◌≤◌, ◌<◌, ◌↔◌, All, IfNone, IfSome, IsTrue};
ghost use Rattle.risc_model.specs.InputOrder.{AreOrdered};
ghost use Rattle.oberon_format.specs.Recording.{IsLawfulWithDisk, IsUnanswered};
ghost use Rattle.oberon_format.specs.Text.{IsPlain};
ghost use Rattle.oberon_session.specs.Extended.{FitInputs, HasNoAnswer, HasRoom, HasTakenAll, IsExtendFault, IsNext, last_count, outcome_of};
ghost use Rattle.oberon_session.specs.declared.extend_fault.ExtendFault.{ExtendFault};

use crate::claim::Claim;
use crate::events::are_unanswered;
use crate::extend_fault::ExtendFault;
use oberon_format::{
    LAST_CHECKPOINT, MAX_COUNT, MAX_EVENTS, MAX_EVENTS_WITH_DISK, MAX_OUTPUT, Recording,
};
use risc_devices::UNANSWERED;
use risc_model::Event;

/// Returns the first rule that a claim breaks as the next checkpoint of a recording, with the inputs that come before it. The limit
/// of the pages is not tested here, since only storing the memory shows how many it needs.
pub fn next_fault(recording: &Recording, inputs: &[Event], claim: &Claim<'_>) -> Option<ExtendFault>
    ensures fault { IfSome result (IsExtendFault recording.now inputs.now claim.now.count (outcome_of claim.now)) }
    ensures tested { IfSome result (λ fault. (fault ≢ ExtendFault.Pages) × (fault ≢ ExtendFault.Memory)) }
    ensures room { IfNone result (HasRoom recording.now inputs.now claim.now.count (outcome_of claim.now)) }
{
    if !has_taken_all(recording) {
        return Some(ExtendFault::Pending);
    }
    if !is_next(recording, inputs, claim.count) {
        return Some(ExtendFault::Order);
    }
    limit_fault(recording, inputs, claim)
}

/// Returns the first limit that a recording would exceed with a claim and inputs that come next.
fn limit_fault(recording: &Recording, inputs: &[Event], claim: &Claim<'_>) -> Option<ExtendFault>
    requires taken { HasTakenAll recording.now }
    requires next { IsNext recording.now inputs.now claim.now.count }
    ensures fault { IfSome result (IsExtendFault recording.now inputs.now claim.now.count (outcome_of claim.now)) }
    ensures tested { IfSome result (λ fault. (fault ≢ ExtendFault.Pages) × (fault ≢ ExtendFault.Memory)) }
    ensures room { IfNone result (HasRoom recording.now inputs.now claim.now.count (outcome_of claim.now)) }
{
    if !inputs_fit(recording, inputs, claim) {
        return Some(ExtendFault::Inputs);
    }
    if recording.count() > LAST_CHECKPOINT {
        return Some(ExtendFault::Checkpoints);
    }
    if claim.sent.len() > MAX_OUTPUT as usize - recording.output_len() {
        return Some(ExtendFault::Output);
    }
    None
}

/// Reports whether a recording with these new inputs and this claim has not too many inputs. Whether a disk has answered is tested only
/// of more inputs than a file without a disk may have.
fn inputs_fit(recording: &Recording, inputs: &[Event], claim: &Claim<'_>) -> bool
    ensures { IsTrue result ↔ FitInputs recording.now inputs.now (outcome_of claim.now) }
{
    let before = recording.inputs().events();
    if inputs.len() > MAX_EVENTS_WITH_DISK as usize - before.len() {
        return false;
    }
    before.len() + inputs.len() <= MAX_EVENTS as usize || !stays_plain(recording, inputs, claim)
}

/// Reports whether a recording is plain, and neither these inputs nor this claim have an answer of a disk.
fn stays_plain(recording: &Recording, inputs: &[Event], claim: &Claim<'_>) -> bool
    ensures { IsTrue result ↔ (IsPlain recording.now × HasNoAnswer inputs.now (outcome_of claim.now)) }
{
    let before = recording.inputs().events();
    before.len() <= MAX_EVENTS as usize
        && claim.devices.disk() == UNANSWERED
        && are_unanswered(inputs)
        && are_unanswered(before)
        && claims_no_answer(recording)
}

/// Reports whether no checkpoint of a recording claims an answer of a disk.
fn claims_no_answer(recording: &Recording) -> bool
    ensures { IsTrue result ↔ All IsUnanswered recording.now.checkpoints }
{
    for k in 0..recording.count() {
        if recording.checkpoint(k).devices.disk() != UNANSWERED {
            return false;
        }
    }
    true
}

fn last_count(recording: &Recording) -> u64
    ensures count { result ≡ last_count recording.now }
    ensures lawful { IsLawfulWithDisk recording.now }
{
    recording.checkpoint(recording.count() - 1).count
}

/// Reports whether each input of a recording comes before its last checkpoint.
fn has_taken_all(recording: &Recording) -> bool
    ensures { IsTrue result ↔ HasTakenAll recording.now }
{
    let last = last_count(recording);
    are_before(last, recording.inputs().events())
}

fn are_before(to: u64, inputs: &[Event]) -> bool
    ensures { IsTrue result ↔ All (λ e. e.count < to) inputs.now }
{
    inputs.iter().all(|event| event.count < to)
}

/// Reports whether a checkpoint at this count, with these inputs, can follow the last checkpoint of a recording that has taken its
/// inputs.
fn is_next(recording: &Recording, inputs: &[Event], count: u64) -> bool
    requires { HasTakenAll recording.now }
    ensures { IsTrue result ↔ IsNext recording.now inputs.now count }
{
    let last = last_count(recording);
    if count <= last || count > MAX_COUNT {
        return false;
    }
    are_between(last, count, inputs) && are_ordered(inputs)
}

fn are_between(from: u64, to: u64, inputs: &[Event]) -> bool
    ensures { IsTrue result ↔ All (λ e. (from ≤ e.count) × (e.count < to)) inputs.now }
{
    inputs
        .iter()
        .all(|event| from <= event.count && event.count < to)
}

/// Reports whether the counts of inputs do not fall and are at most `MAX_COUNT`.
fn are_ordered(inputs: &[Event]) -> bool
    ensures { IsTrue result ↔ AreOrdered inputs.now }
{
    let mut least = 0;
    for event in inputs {
        if event.count < least || event.count > MAX_COUNT {
            return false;
        }
        least = event.count;
    }
    true
}
