//! Recordings that a caller makes while a machine runs: the beginning, and the next checkpoint.
ghost use Rattle.std.specs.Prelude.{◌≡◌, ◌≢◌, ◌<◌, ◌≤◌, ◌⊎◌, IfErr, IfNone, IfOk, IfSome, OnOk, drop, length, take};
ghost use Rattle.risc_core.specs.declared.branch.TheConstants.{COUNTER_END};
ghost use Rattle.risc_pages.specs.declared.sizes.TheConstants.{MEMORY_WORDS};
ghost use Rattle.oberon_format.specs.ByteFields.{first_fault_with_disk};
ghost use Rattle.oberon_session.specs.Extended.{outcome_of};
ghost use Rattle.oberon_session.specs.declared.extend_fault.ExtendFault.{ExtendFault};
ghost use Rattle.galluspa.specs.Claim.{IsNoRecording};
ghost use Rattle.galluspa.specs.Extend.{CanBegin, CanFollow, DoesNotFollow, HasExtendFault, IsBeginning, IsExtension, IsFile, claim_of};
ghost use Rattle.galluspa.specs.Raw.{AreInOrder, IsWhole};
ghost use Rattle.galluspa.specs.Room.{NeedsRoom};
ghost use Rattle.galluspa.specs.inner.Extending.{IsMore, IsNoMore, IsUnextended, code_of, unextended};

use crate::advance::{are_in_order, inputs_of};
use crate::front::copy_to_front;
use crate::raw::{RawInput, RawState, parts_of};
use crate::refusal::{
    DONE, NO_CHECKPOINT, NO_RECORDING, NO_ROOM, OUT_OF_MEMORY, OUT_OF_RANGE, PENDING_INPUTS,
    RangeOrMemory, TOO_MANY_CHECKPOINTS, TOO_MANY_INPUTS, TOO_MANY_PAGES, TOO_MUCH_OUTPUT,
};
use oberon_format::{Fault, Recording, read_with_disk, write};
use oberon_session::{Claim, ExtendFault, begin_recording, extend_recording};
use std::alloc::Global;

/// Error from beginning or extending a recording.
#[derive(Clone, Copy)]
pub enum Unrecorded {
    /// A number is out of its range, a slice is not of its length, or what follows doesn't come next.
    Range,
    /// The bytes are not a recording.
    NoRecording,
    /// The recording has inputs at or after its last checkpoint.
    Pending,
    /// There would be too many inputs.
    Inputs,
    /// There would be too many checkpoints.
    Checkpoints,
    /// Too many bytes would be sent.
    Output,
    /// There would be too many pages.
    Pages,
    /// An allocation failed.
    Memory,
}

impl Unrecorded {
    /// Returns the number that a caller in C gets.
    fn code(self) -> u8
        ensures code { result ≡ code_of self }
        ensures refused { (result ≡ OUT_OF_RANGE) ⊎ (OUT_OF_MEMORY ≤ result) }
        ensures codes { (result ≢ NO_CHECKPOINT) × (result ≤ PENDING_INPUTS) }
    {
        match self {
            Unrecorded::Range => OUT_OF_RANGE,
            Unrecorded::NoRecording => NO_RECORDING,
            Unrecorded::Pending => PENDING_INPUTS,
            Unrecorded::Inputs => TOO_MANY_INPUTS,
            Unrecorded::Checkpoints => TOO_MANY_CHECKPOINTS,
            Unrecorded::Output => TOO_MUCH_OUTPUT,
            Unrecorded::Pages => TOO_MANY_PAGES,
            Unrecorded::Memory => OUT_OF_MEMORY,
        }
    }
}

/// Borrows the words and the bytes; nothing is copied or allocated.
fn claim_of<'a>(state: &RawState, words: &'a [u32], sent: &'a [u8]) -> Option<Claim<'a>>
    ensures count { IfSome result (λ claim. claim.count ≡ state.now.count) }
    ensures outcome { IfSome result (λ claim. outcome_of claim ≡ claim_of state.now words.now sent.now) }
    ensures words { IfSome result (λ claim. length claim.words.now ≡ MEMORY_WORDS) }
    ensures counter { IfSome result (λ claim. claim.cpu.pc < COUNTER_END) }
    ensures stop { IfSome result (λ claim. claim.cpu.stop ≤ 4) }
    ensures whole { IfSome result (λ _. IsWhole state.now words.now) }
    ensures range { IfNone result (¬ (IsWhole state.now words.now)) }
{
    let Some((cpu, devices)) = parts_of(state, words) else {
        return None;
    };
    Some(Claim {
        count: state.count,
        cpu,
        devices,
        words,
        sent,
    })
}

fn written(alloc: Global, recording: Recording) -> Result<Vec<u8>, Unrecorded>
    ensures text { IfOk result (λ bytes. IsFile bytes.items recording) }
    ensures memory { IfErr result (λ refusal. refusal ≡ Unrecorded.Memory) }
{
    match write(alloc, &recording) {
        Ok(bytes) => Ok(bytes),
        Err(_) => Err(Unrecorded::Memory),
    }
}

fn beginning(alloc: Global, state: &RawState, words: &[u32]) -> Result<Vec<u8>, RangeOrMemory>
    ensures beginning { IfOk result (λ bytes. IsBeginning state.now words.now bytes.items) }
    ensures whole { OnOk result (CanBegin state.now words.now) }
    ensures in_range { IfErr result (λ refusal. refusal ≡ RangeOrMemory.Memory → CanBegin state.now words.now) }
    ensures range { IfErr result (λ refusal. refusal ≡ RangeOrMemory.Range → ¬ (CanBegin state.now words.now)) }
{
    if state.count != 0 {
        return Err(RangeOrMemory::Range);
    }
    let Some(claim) = claim_of(state, words, &[]) else {
        return Err(RangeOrMemory::Range);
    };
    let recording = begin_recording(alloc, claim.cpu, claim.devices, words)?;
    let bytes = write(alloc, &recording)?;
    Ok(bytes)
}

fn unextended(fault: ExtendFault) -> Unrecorded
    ensures { result ≡ unextended fault }
{
    match fault {
        ExtendFault::Pending => Unrecorded::Pending,
        ExtendFault::Order => Unrecorded::Range,
        ExtendFault::Inputs => Unrecorded::Inputs,
        ExtendFault::Checkpoints => Unrecorded::Checkpoints,
        ExtendFault::Output => Unrecorded::Output,
        ExtendFault::Pages => Unrecorded::Pages,
        ExtendFault::Memory => Unrecorded::Memory,
    }
}

fn extended(
    alloc: Global,
    bytes: &[u8],
    inputs: &[RawInput],
    claim: &Claim<'_>,
) -> Result<Recording, Unrecorded>
    requires counter { claim.now.cpu.pc < COUNTER_END }
    requires stop { claim.now.cpu.stop ≤ 4 }
    requires whole { length claim.now.words.now ≡ MEMORY_WORDS }
    requires ordered { AreInOrder inputs.now }
    ensures more { IfOk result (IsMore bytes.now inputs.now claim.now) }
    ensures refused { IfErr result (IsNoMore bytes.now inputs.now claim.now) }
{
    let recording = match read_with_disk(alloc, bytes) {
        Ok(recording) => recording,
        Err(Fault::Memory) => return Err(Unrecorded::Memory),
        Err(_) => return Err(Unrecorded::NoRecording),
    };
    let Ok(inputs) = inputs_of(alloc, inputs) else {
        return Err(Unrecorded::Memory);
    };
    match extend_recording(alloc, recording, inputs.events(), claim) {
        Ok(more) => Ok(more),
        Err(fault) => Err(unextended(fault)),
    }
}

/// Tests the numbers and the order of the inputs before the bytes are read, which allocates.
fn extension(
    alloc: Global,
    bytes: &[u8],
    inputs: &[RawInput],
    state: &RawState,
    words: &[u32],
    sent: &[u8],
) -> Result<Vec<u8>, Unrecorded>
    ensures extension { IfOk result (λ out. IsExtension bytes.now inputs.now state.now words.now sent.now out.items) }
    ensures follows { IfOk result (λ _. CanFollow bytes.now inputs.now state.now words.now) }
    ensures refused { IfErr result (IsUnextended bytes.now inputs.now state.now words.now sent.now) }
    ensures whole { IfErr result (λ refusal. refusal ≢ Unrecorded.Range → IsWhole state.now words.now) }
    ensures ordered { IfErr result (λ refusal. refusal ≢ Unrecorded.Range → AreInOrder inputs.now) }
    ensures reason { IfErr result (λ refusal.
        refusal ≡ Unrecorded.Range → DoesNotFollow bytes.now inputs.now state.now words.now) }
{
    let Some(claim) = claim_of(state, words, sent) else {
        return Err(Unrecorded::Range);
    };
    if !are_in_order(inputs) {
        return Err(Unrecorded::Range);
    }
    let more = extended(alloc, bytes, inputs, &claim)?;
    written(alloc, more)
}

/// Writes only the number of the bytes if there is no room for them, so that a caller knows how much is needed.
pub(crate) fn put(bytes: &[u8], out: &mut [u8], out_count: &mut usize) -> u8
    ensures done { result ≡ DONE → (out_count.new ≤ length out.old) × (take out_count.new out.new ≡ bytes.now) }
    ensures no_room { result ≡ NO_ROOM → (out_count.new ≡ length bytes.now) × (length out.old < out_count.new) }
    ensures rest { drop out_count.new out.new ≡ drop out_count.new out.old }
    ensures unchanged { result ≢ DONE → out.new ≡ out.old }
    ensures codes { (result ≡ DONE) ⊎ (result ≡ NO_ROOM) }
{
    *out_count = bytes.len();
    if bytes.len() > out.len() {
        return NO_ROOM;
    }
    copy_to_front(bytes, out);
    DONE
}

/// Begins a recording: writes the one that has no inputs, and checkpoint 0 alone, which claims this state, to the front of `out`,
/// and its length to `out_count`; and returns 0 (`DONE`). `count` of the state is 0: a recording counts from its initial state.
///
/// Otherwise `out` is as it was, and the result is 1 (`OUT_OF_RANGE`) if `words` is not of 262,144 words, `count` is not 0, or a
/// number of the state is out of its range; 2 (`NO_ROOM`) if `out` has no room for the recording, whose length is then written to
/// `out_count`; and 3 (`OUT_OF_MEMORY`) if memory ran out.
#[unsafe(no_mangle)]
pub extern "C" fn galluspa_begin(
    alloc: Global,
    state: &RawState,
    words: &[u32],
    out: &mut [u8],
    out_count: &mut usize,
) -> u8
    ensures begun { result ≡ DONE → IsBeginning state.now words.now (take out_count.new out.new) }
    ensures room { result ≡ DONE → out_count.new ≤ length out.old }
    ensures rest { drop out_count.new out.new ≡ drop out_count.new out.old }
    ensures no_room { result ≡ NO_ROOM → NeedsRoom (IsBeginning state.now words.now) (length out.old) out_count.new }
    ensures unchanged { result ≢ DONE → out.new ≡ out.old }
    ensures uncounted { result ≢ DONE → result ≢ NO_ROOM → out_count.new ≡ out_count.old }
    ensures in_range { result ≢ OUT_OF_RANGE → CanBegin state.now words.now }
    ensures range { result ≡ OUT_OF_RANGE → ¬ (CanBegin state.now words.now) }
    ensures codes { result ≤ OUT_OF_MEMORY }
{
    match beginning(alloc, state, words) {
        Ok(bytes) => put(&bytes, out, out_count),
        Err(RangeOrMemory::Range) => OUT_OF_RANGE,
        Err(RangeOrMemory::Memory) => OUT_OF_MEMORY,
    }
}

/// Extends a recording by its next checkpoint: writes the recording with these inputs and one more checkpoint, which claims this
/// state and that these bytes were sent since the previous checkpoint, to the front of `out`, and its length to `out_count`; and
/// returns 0 (`DONE`). Whether the claim is true is not tested.
///
/// Otherwise `out` is as it was, and the result is the first of these that holds, unless memory runs out before it is known: 1
/// (`OUT_OF_RANGE`) if `words` is not of 262,144 words, a number of the state or of an input is out of its range, or the inputs'
/// counts fall; 4 (`NO_RECORDING`) if the bytes are not a recording; 10 (`PENDING_INPUTS`) if the recording has an input at or
/// after its last checkpoint; 1 (`OUT_OF_RANGE`) if the state's count is not above that of the last checkpoint, or is above 2^40,
/// or an input doesn't come between the two; 6 to 9 (`TOO_MANY_INPUTS`, `TOO_MANY_CHECKPOINTS`, `TOO_MUCH_OUTPUT`,
/// `TOO_MANY_PAGES`) if the recording would have more of these than a recording may have; and 2 (`NO_ROOM`) if `out` has no room
/// for the recording, whose length is then written to `out_count`. If memory runs out, it is 3 (`OUT_OF_MEMORY`): then the numbers
/// are in their ranges, but for the state's count, which is compared with those of the recording, and the bytes are a recording.
#[unsafe(no_mangle)]
pub extern "C" fn galluspa_extend(
    alloc: Global,
    recording: &[u8],
    inputs: &[RawInput],
    state: &RawState,
    words: &[u32],
    sent: &[u8],
    out: &mut [u8],
    out_count: &mut usize,
) -> u8
    ensures extended { result ≡ DONE →
        IsExtension recording.now inputs.now state.now words.now sent.now (take out_count.new out.new) }
    ensures room { result ≡ DONE → out_count.new ≤ length out.old }
    ensures rest { drop out_count.new out.new ≡ drop out_count.new out.old }
    ensures no_room { result ≡ NO_ROOM →
        NeedsRoom (IsExtension recording.now inputs.now state.now words.now sent.now) (length out.old) out_count.new }
    ensures unchanged { result ≢ DONE → out.new ≡ out.old }
    ensures uncounted { result ≢ DONE → result ≢ NO_ROOM → out_count.new ≡ out_count.old }
    ensures in_range { result ≤ NO_ROOM → result ≢ OUT_OF_RANGE → CanFollow recording.now inputs.now state.now words.now }
    ensures whole { result ≢ OUT_OF_RANGE → IsWhole state.now words.now }
    ensures ordered { result ≢ OUT_OF_RANGE → AreInOrder inputs.now }
    ensures range { result ≡ OUT_OF_RANGE → ¬ (CanFollow recording.now inputs.now state.now words.now) }
    ensures reason { result ≡ OUT_OF_RANGE → DoesNotFollow recording.now inputs.now state.now words.now }
    ensures no_recording { result ≡ NO_RECORDING → IsNoRecording recording.now }
    ensures memory { result ≡ OUT_OF_MEMORY → first_fault_with_disk recording.now ≡ None }
    ensures pending { result ≡ PENDING_INPUTS →
        HasExtendFault recording.now inputs.now state.now words.now sent.now ExtendFault.Pending }
    ensures inputs { result ≡ TOO_MANY_INPUTS →
        HasExtendFault recording.now inputs.now state.now words.now sent.now ExtendFault.Inputs }
    ensures checkpoints { result ≡ TOO_MANY_CHECKPOINTS →
        HasExtendFault recording.now inputs.now state.now words.now sent.now ExtendFault.Checkpoints }
    ensures output { result ≡ TOO_MUCH_OUTPUT →
        HasExtendFault recording.now inputs.now state.now words.now sent.now ExtendFault.Output }
    ensures pages { result ≡ TOO_MANY_PAGES →
        HasExtendFault recording.now inputs.now state.now words.now sent.now ExtendFault.Pages }
    ensures codes { (result ≢ NO_CHECKPOINT) × (result ≤ PENDING_INPUTS) }
{
    match extension(alloc, recording, inputs, state, words, sent) {
        Ok(bytes) => put(&bytes, out, out_count),
        Err(refusal) => refusal.code(),
    }
}
