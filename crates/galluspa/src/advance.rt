//! A run of a machine in the memory of a caller.
ghost use Rattle.std.specs.Prelude.{◌≡◌, ◌≢◌, ◌<◌, ◌≤◌, ◌+◌, ◌-◌, ◌++◌, ◌↔◌, drop, length, map, take};
ghost use Rattle.std.specs.Prelude.{All, IfErr, IfNone, IfOk, IfSome, IsTrue, OnErr, OnOk};
ghost use Rattle.risc_devices.specs.InputKind.{IsInputWithDisk};
ghost use Rattle.risc_machine.specs.Allocation.{MayFail, MayFailToAllocate};
ghost use Rattle.risc_model.specs.MachineState.{cpu_state};
ghost use Rattle.risc_model.specs.Replay.{run_of, sent_of};
ghost use Rattle.risc_pages.specs.declared.sizes.TheConstants.{MEMORY_WORDS};
ghost use Rattle.galluspa.specs.Advance.{HasRun, IsInRange, SendsMore};
ghost use Rattle.galluspa.specs.Raw.{AreEvents, AreInOrder, IsWhole, IsWritten, cpu_of, devices_of, raw_input, state_of};
ghost use Rattle.galluspa.specs.inner.Running.{IsAdvanceRefusal, IsRun, IsRunRefusal};

use crate::front::copy_to_front;
use crate::raw::{RawInput, RawState, parts_of, state_of};
use crate::refusal::{DONE, NO_ROOM, OUT_OF_MEMORY, OUT_OF_RANGE, Refusal};
use crate::words::{paged, write_delta};
use risc_devices::{Devices, Input};
use risc_machine::{Machine, Output};
use risc_model::{Cpu, Event, Inputs, MAX_COUNT};
use std::alloc::{AllocError, Global};

/// Tests a kind before it is cut to a byte, or 257 would pass for 1. `Input::new_with_disk` tests the value.
fn event_at(count: u64, kind: u32, value: u32) -> Option<Event>
    ensures event { IfSome result (λ event. raw_input event ≡ record { count = count; kind = kind; value = value }) }
    ensures lawful { IfSome result (λ _. IsInputWithDisk kind value) }
    ensures range { IfNone result (¬ (IsInputWithDisk kind value)) }
{
    if kind > 6 {
        return None;
    }
    match Input::new_with_disk(kind as u8, value) {
        Ok(input) => Some(Event { count, input }),
        Err(_) => None,
    }
}

/// Reports whether each input of a caller has a kind from 1 to 6 and a value in the range of its kind, and their counts do not fall
/// and are at most 2^40 (`MAX_COUNT`).
pub fn are_in_order(inputs: &[RawInput]) -> bool
    ensures { IsTrue result ↔ AreInOrder inputs.now }
{
    let mut least = 0;
    for input in inputs {
        if input.count < least || input.count > MAX_COUNT {
            return false;
        }
        let Some(event) = event_at(input.count, input.kind, input.value) else {
            return false;
        };
        least = event.count;
    }
    true
}

fn events_of(alloc: Global, inputs: &[RawInput]) -> Result<Vec<Event>, AllocError>
    requires { AreInOrder inputs.now }
    ensures { IfOk result (λ events. map raw_input events.items ≡ inputs.now) }
{
    let mut events = Vec::with_capacity(alloc, inputs.len())?;
    for input in inputs {
        let Some(event) = event_at(input.count, input.kind, input.value) else {
            unreachable!()
        };
        events.push(event)?;
    }
    Ok(events)
}

/// Returns the inputs of a caller, which `are_in_order` has tested. Fails only if memory runs out.
pub fn inputs_of(alloc: Global, inputs: &[RawInput]) -> Result<Inputs, AllocError>
    requires { AreInOrder inputs.now }
    ensures { IfOk result (λ events. AreEvents inputs.now events) }
{
    match Inputs::new(events_of(alloc, inputs)?) {
        Ok(inputs) => Ok(inputs),
        Err(_) => unreachable!(),
    }
}

/// Runs a machine from one count up to another, and returns the bytes that it sends, of which there are at most `room`.
fn sent_by(
    alloc: Global,
    machine: &mut Machine<'_>,
    inputs: &Inputs,
    from: u64,
    to: u64,
    room: usize,
) -> Result<Vec<u8>, Refusal>
    requires forward { from ≤ to }
    ensures state { OnOk result (machine.new.state ≡ run_of inputs.now from (to - from) machine.old.state) }
    ensures sent { IfOk result (λ sent. sent.items ≡ sent_of inputs.now from (to - from) machine.old.state) }
    ensures room { IfOk result (λ sent. length sent.items ≤ room) }
    ensures kept { machine.new.base ≡ machine.old.base }
    ensures no_room { IfErr result (λ refusal.
        refusal ≡ Refusal.Room → room < length (sent_of inputs.now from (to - from) machine.old.state)) }
    ensures memory { IfErr result (λ refusal. refusal ≡ Refusal.Memory → MayFail machine.new) }
    ensures refusal { IfErr result (λ refusal. refusal ≢ Refusal.Range) }
{
    let mut output = Output {
        bytes: Vec::new(alloc),
        room,
    };
    let mut at = from;
    while at < to {
        at = run_on(machine, inputs, at, to, &mut output)?;
    }
    Ok(output.bytes)
}

/// Runs a machine on, as long as there is room for what it sends. Returns the count that it reached: `to`, or that after an
/// instruction for which memory ran out, and was there when it was tried again.
///
/// A run that ends early when all room is taken ends before an instruction that sends, or for which memory ran out. A step of
/// that instruction tells the two apart.
fn run_on(
    machine: &mut Machine<'_>,
    inputs: &Inputs,
    at: u64,
    to: u64,
    output: &mut Output,
) -> Result<u64, Refusal>
    requires forward { at < to }
    requires room { length output.old.bytes.items ≤ output.old.room }
    ensures further { IfOk result (λ end. (at < end) × (end ≤ to)) }
    ensures state { IfOk result (λ end. machine.new.state ≡ run_of inputs.now at (end - at) machine.old.state) }
    ensures sent { IfOk result (λ end.
        output.new.bytes.items ≡ output.old.bytes.items ++ sent_of inputs.now at (end - at) machine.old.state) }
    ensures kept { machine.new.base ≡ machine.old.base }
    ensures no_room { IfErr result (λ refusal.
        refusal ≡ Refusal.Room →
        output.old.room < length output.old.bytes.items + length (sent_of inputs.now at (to - at) machine.old.state)) }
    ensures memory { IfErr result (λ refusal. refusal ≡ Refusal.Memory → MayFail machine.new) }
    ensures full { IfErr result (λ refusal.
        refusal ≡ Refusal.Memory → length output.new.bytes.items ≡ output.old.room → MayFailToAllocate machine.new) }
    ensures refusal { IfErr result (λ refusal. refusal ≢ Refusal.Range) }
    // Whatever comes, no more bytes are held.
    ensures held { length output.new.bytes.items ≤ output.new.room }
    ensures room { output.new.room ≡ output.old.room }
{
    match machine.run_within(inputs, at, to, output) {
        Ok(()) => Ok(to),
        Err(fault) => {
            if output.bytes.len() < output.room {
                return Err(Refusal::Memory);
            }
            match machine.step() {
                Ok(None) => Ok(fault.at + 1),
                Ok(Some(_)) => Err(Refusal::Room),
                Err(_) => Err(Refusal::Memory),
            }
        }
    }
}

/// Writes the state of a machine, which began with a caller's words and is at a count, to the caller's memory: the state, and the pages
/// that changed over the words. Fails only if memory runs out, and writes nothing then.
pub fn write_machine(
    machine: Machine<'_>,
    count: u64,
    state: &mut RawState,
    words: &mut [u32],
) -> Result<(), AllocError>
    requires base { machine.base ≡ words.old }
    requires words { length words.old ≡ MEMORY_WORDS }
    ensures count { OnOk result (state.new.count ≡ count) }
    ensures state { OnOk result (state_of state.new words.new ≡ machine.entry.state) }
    ensures written { OnOk result (IsWritten state.new words.new) }
    ensures unchanged { OnErr result ((state.new ≡ state.old) × (words.new ≡ words.old)) }
{
    // The contract of `owned` states that a memory has all its words.
    let _owned = machine.memory().owned(0);
    let (cpu, devices, delta) = machine.close()?;
    *state = state_of(count, &cpu, &devices);
    write_delta(&delta, words);
    Ok(())
}

/// Writes nothing before the machine is closed, the last step that can be refused.
fn run_machine(
    alloc: Global,
    mut machine: Machine<'_>,
    state: &mut RawState,
    words: &mut [u32],
    inputs: &Inputs,
    to: u64,
    room: usize,
) -> Result<Vec<u8>, Refusal>
    requires state { machine.state ≡ state_of state.old words.old }
    requires base { machine.base ≡ words.old }
    requires words { length words.old ≡ MEMORY_WORDS }
    requires forward { state.old.count ≤ to }
    ensures run { IfOk result (λ sent. IsRun inputs.now to state.old words.old state.new words.new sent.items) }
    ensures room { IfOk result (λ sent. length sent.items ≤ room) }
    ensures unchanged { OnErr result ((state.new ≡ state.old) × (words.new ≡ words.old)) }
    ensures refused { IfErr result (IsRunRefusal inputs.now to state.old words.old room) }
{
    let sent = sent_by(alloc, &mut machine, inputs, state.count, to, room)?;
    write_machine(machine, to, state, words)?;
    Ok(sent)
}

/// Copies the words into pages, starts a machine on these with `parts`, and runs it as `run_machine` does.
fn run_parts(
    alloc: Global,
    parts: (Cpu, Devices),
    state: &mut RawState,
    words: &mut [u32],
    inputs: &Inputs,
    to: u64,
    room: usize,
) -> Result<Vec<u8>, Refusal>
    requires cpu { cpu_state parts.0 ≡ cpu_of state.old }
    requires devices { parts.1 ≡ devices_of state.old }
    requires whole { IsWhole state.old words.old }
    requires forward { state.old.count ≤ to }
    ensures run { IfOk result (λ sent. IsRun inputs.now to state.old words.old state.new words.new sent.items) }
    ensures room { IfOk result (λ sent. length sent.items ≤ room) }
    ensures unchanged { OnErr result ((state.new ≡ state.old) × (words.new ≡ words.old)) }
    ensures refused { IfErr result (IsRunRefusal inputs.now to state.old words.old room) }
{
    let (pool, table) = paged(alloc, words)?;
    let (cpu, devices) = parts;
    let machine = Machine::start(alloc, &pool, &table, cpu, devices)?;
    run_machine(alloc, machine, state, words, inputs, to, room)
}

/// Tests all numbers before it allocates, so that a number out of its range is never answered with `OUT_OF_MEMORY`.
fn run(
    alloc: Global,
    state: &mut RawState,
    words: &mut [u32],
    inputs: &[RawInput],
    to: u64,
    room: usize,
) -> Result<Vec<u8>, Refusal>
    ensures run { IfOk result (λ sent. HasRun inputs.now to state.old words.old state.new words.new sent.items) }
    ensures room { IfOk result (λ sent. length sent.items ≤ room) }
    ensures written { IfOk result (λ sent. IsWritten state.new words.new) }
    ensures unchanged { OnErr result ((state.new ≡ state.old) × (words.new ≡ words.old)) }
    ensures in_range { OnOk result (IsInRange inputs.now to state.old words.old) }
    ensures refused { IfErr result (IsAdvanceRefusal inputs.now to state.old words.old room) }
{
    if to < state.count || !are_in_order(inputs) {
        return Err(Refusal::Range);
    }
    let Some(parts) = parts_of(state, words) else {
        return Err(Refusal::Range);
    };
    let inputs = inputs_of(alloc, inputs)?;
    run_parts(alloc, parts, state, words, &inputs, to, room)
}

/// Runs a machine from the count of its state up to the count `to`, with the inputs of these counts and perhaps others, and
/// returns 0 (`DONE`). The bytes that it sends are written to the front of `sent`, and their number to `sent_count`.
///
/// A state that is written has each number in its range, so that the next call takes it; `galluspa_claim` guarantees this too.
///
/// Otherwise nothing is written, and the result is 1 (`OUT_OF_RANGE`) if `words` is not of 262,144 words, `to` is below the count
/// of the state, a number of the state or of an input is out of its range, or the inputs' counts fall or are above 2^40; 2
/// (`NO_ROOM`) if the machine sends more bytes than `sent` has room for; and 3 (`OUT_OF_MEMORY`) if all is in range and memory ran
/// out.
#[unsafe(no_mangle)]
pub extern "C" fn galluspa_advance(
    alloc: Global,
    state: &mut RawState,
    words: &mut [u32],
    inputs: &[RawInput],
    to: u64,
    sent: &mut [u8],
    sent_count: &mut usize,
) -> u8
    ensures run { result ≡ DONE →
        HasRun inputs.now to state.old words.old state.new words.new (take sent_count.new sent.new) }
    ensures room { result ≡ DONE → sent_count.new ≤ length sent.old }
    ensures rest { drop sent_count.new sent.new ≡ drop sent_count.new sent.old }
    ensures written { result ≡ DONE → IsWritten state.new words.new }
    ensures unchanged { result ≢ DONE → (state.new ≡ state.old) × (words.new ≡ words.old) }
    ensures unsent { result ≢ DONE → (sent.new ≡ sent.old) × (sent_count.new ≡ sent_count.old) }
    ensures no_room { result ≡ NO_ROOM → SendsMore inputs.now to state.old words.old (length sent.old) }
    ensures in_range { result ≢ OUT_OF_RANGE → IsInRange inputs.now to state.old words.old }
    ensures range { result ≡ OUT_OF_RANGE → ¬ (IsInRange inputs.now to state.old words.old) }
    ensures codes { result ≤ OUT_OF_MEMORY }
{
    match run(alloc, state, words, inputs, to, sent.len()) {
        Ok(bytes) => {
            copy_to_front(&bytes, sent);
            *sent_count = bytes.len();
            DONE
        }
        Err(Refusal::Range) => OUT_OF_RANGE,
        Err(Refusal::Room) => NO_ROOM,
        Err(Refusal::Memory) => OUT_OF_MEMORY,
    }
}
