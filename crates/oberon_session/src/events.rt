//! The inputs of a session: tests of their ranges and their order, the events that they are, and a test for answers of a disk.

ghost use Rattle.std.specs.Prelude.{◌≡◌, ◌↔◌, IfOk, IfErr, IsTrue, map};
ghost use Rattle.std.specs.List.{All};
ghost use Rattle.risc_model.specs.DiskInputs.{IsOfDisk};
ghost use Rattle.risc_model.specs.InputOrder.{AreOrdered};
ghost use Rattle.oberon_session.specs.inner.Drafts.{input_view};
ghost use Rattle.oberon_session.specs.Ranges.{input_counts, max_inputs};
ghost use Rattle.oberon_session.specs.Session.{numbers_of_event};
ghost use Rattle.oberon_session.specs.inner.Tested.{BreaksInputs, BreaksRanges, InputFits, InputsFit, IsEventOf, NeverFalls};

use crate::SessionFault;
use crate::draft::InputDraft;
use oberon_format::{MAX_COUNT, MAX_EVENTS, MAX_EVENTS_WITH_DISK};
use risc_devices::Input;
use risc_devices::kinds::DISK;
use risc_model::{Event, Inputs};
use std::alloc::Global;

/// Returns the inputs of a session of a version, or the first rule on ranges and order that they break.
pub fn inputs_of(alloc: Global, version: u64, drafts: &[InputDraft]) -> Result<Inputs, SessionFault>
    ensures numbers { IfOk result (λ inputs. map numbers_of_event inputs ≡ map input_view drafts.now) }
    ensures fit { IfOk result (λ _. InputsFit version (map input_view drafts.now)) }
    ensures ordered { IfOk result AreOrdered }
    ensures order { IfOk result (λ _. NeverFalls (input_counts (map input_view drafts.now))) }
    ensures err { IfErr result (BreaksInputs version (map input_view drafts.now)) }
{
    if drafts.len() > max_inputs(version) as usize {
        return Err(SessionFault::Range);
    }
    match Inputs::new(events(alloc, drafts)?) {
        Ok(inputs) => Ok(inputs),
        Err(_) => Err(SessionFault::Order),
    }
}

/// Returns the most inputs that a session of a version may have.
fn max_inputs(version: u64) -> u32
    ensures { result ≡ max_inputs version }
{
    if version == 3 {
        MAX_EVENTS_WITH_DISK
    } else {
        MAX_EVENTS
    }
}

/// Reports whether no input is an answer of a disk.
pub fn are_unanswered(inputs: &[Event]) -> bool
    ensures { IsTrue result ↔ All (λ e. ¬ (IsOfDisk e)) inputs.now }
{
    inputs.iter().all(|event| event.input.kind() != DISK)
}

/// Returns the events of inputs that are all in their ranges, or `Range`.
fn events(alloc: Global, drafts: &[InputDraft]) -> Result<Vec<Event>, SessionFault>
    ensures numbers { IfOk result (λ events. map numbers_of_event events.items ≡ map input_view drafts.now) }
    ensures fit { IfOk result (λ _. All InputFits (map input_view drafts.now)) }
    ensures err { IfErr result (BreaksRanges (map input_view drafts.now)) }
{
    let mut events = Vec::new(alloc);
    for draft in drafts {
        match event(draft) {
            Some(event) => events.push(event)?,
            None => return Err(SessionFault::Range),
        }
    }
    Ok(events)
}

/// Returns the event of an input, if its numbers are in their ranges.
fn event(draft: &InputDraft) -> Option<Event>
    ensures { IsEventOf (input_view draft.now) result }
{
    if draft.count > MAX_COUNT {
        return None;
    }
    let Ok(value) = u32::try_from(draft.value) else {
        return None;
    };
    match Input::new_with_disk(draft.kind, value) {
        Ok(input) => Some(Event {
            count: draft.count,
            input,
        }),
        Err(_) => None,
    }
}
