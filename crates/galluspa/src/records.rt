//! What each instruction of a run does, in the memory of a caller.
ghost use Rattle.std.specs.Prelude.{◌≡◌, ◌≢◌, ◌≤◌, ◌<◌, ◌+◌, ◌^◌, ◌⊎◌, length, All, IfErr, IfSome, OnErr, OnOk};
ghost use Rattle.risc_model.specs.MachineState.{cpu_state};
ghost use Rattle.risc_model.specs.Replay.{run_of};
ghost use Rattle.risc_pages.specs.declared.sizes.TheConstants.{MEMORY_WORDS};
ghost use Rattle.galluspa.specs.Raw.{IsWhole, IsWritten, cpu_of, devices_of, state_of};
ghost use Rattle.galluspa.specs.Records.{AreFirstRecorded, AreRecorded, HasRecorded, HasRecordedFirst, IsInRecordsRange, IsPlain, effect_of};
ghost use Rattle.galluspa.specs.inner.Recording.{HasBytes, IsMoved};

use crate::advance::{are_in_order, inputs_of};
use crate::raw::{RawInput, RawState, parts_of, state_of};
use crate::refusal::{DONE, OUT_OF_MEMORY, OUT_OF_RANGE, RangeOrMemory};
use crate::words::{paged, write_delta};
use risc_devices::Devices;
use risc_machine::Machine;
use risc_model::{Cpu, Inputs, first_from};
use risc_search::{Access, Accessed, Effect, inputs_after, step_with_effect};
use std::alloc::{AllocError, Global};

/// What an instruction does, and the state before it: 184 bytes. A number that says nothing is 0.
#[repr(C)]
#[derive(Clone, Copy)]
pub struct RawRecord {
    /// The state before the instruction and before the inputs of its count.
    pub state: RawState,
    /// The index of the first input of this count or of a later one.
    pub inputs_from: u64,
    /// The number of inputs from there on that the machine takes before the instruction.
    pub inputs_count: u64,
    /// The word of the instruction.
    pub word: u32,
    /// The address of the first byte that it loads or stores: below 2^24.
    pub address: u32,
    /// The value of these bytes before it, as a load of them gives it after the inputs.
    pub old_value: u32,
    /// The value that it stores, or for a load the value before it.
    pub new_value: u32,
    /// The byte that it sends.
    pub sent: u32,
    /// 1 if there is a word: the machine runs, and its program counter is in RAM.
    pub has_word: u8,
    /// The number of bytes that it loads or stores: 1 or 4, or 0 if it accesses none.
    pub access_bytes: u8,
    /// 1 if it stores them.
    pub stores: u8,
    /// 1 if it sends a byte.
    pub sends: u8,
}

/// Returns the record of an instruction, by the state before it and what it does.
#[inline(always)]
pub(crate) fn raw_record(state: RawState, effect: &Effect) -> RawRecord
    requires { IfSome effect.now.accessed HasBytes }
    ensures state { result.state ≡ state }
    ensures effect { effect_of result ≡ effect.now }
    ensures plain { IsPlain result }
{
    let none = Accessed {
        access: Access {
            stores: false,
            first: 0,
            count: 0,
        },
        old: 0,
        new: 0,
    };
    let accessed = effect.accessed.unwrap_or(none);
    RawRecord {
        state,
        inputs_from: effect.inputs_from as u64,
        inputs_count: effect.inputs_count as u64,
        word: effect.word.unwrap_or(0),
        address: accessed.access.first,
        old_value: accessed.old,
        new_value: accessed.new,
        sent: effect.sent.unwrap_or(0) as u32,
        has_word: effect.word.is_some() as u8,
        access_bytes: accessed.access.count as u8,
        stores: accessed.access.stores as u8,
        sends: effect.sent.is_some() as u8,
    }
}

/// Runs a machine from a count on, and writes the record of each count.
fn record_machine(
    alloc: Global,
    machine: &mut Machine<'_>,
    inputs: &Inputs,
    from: u64,
    records: &mut [RawRecord],
) -> Result<(), AllocError>
    requires short { from + length records.old < 2 ^ 64 }
    ensures each { OnOk result (AreRecorded (length records.new) records.new inputs.now from machine.old.state) }
    ensures state { OnOk result (machine.new.state ≡ run_of inputs.now from (length records.new) machine.old.state) }
    ensures first { OnErr result (AreFirstRecorded inputs.now from machine.old.state records.old records.new) }
    ensures count { length records.new ≡ length records.old }
    ensures kept { machine.new.base ≡ machine.old.base }
{
    let events = inputs.events();
    let mut next = first_from(events, from);
    for index in 0..records.len() {
        let at = from + index as u64;
        let end = inputs_after(events, next, at);
        let state = state_of(at, machine.cpu(), machine.devices());
        let Ok(effect) = step_with_effect(alloc, machine, inputs, at, next, end) else {
            return Err(AllocError);
        };
        records[index] = raw_record(state, &effect);
        next = end;
    }
    Ok(())
}

/// Closes a machine, and writes the state that it comes to at a count, and the words that changed.
fn move_to(
    machine: Machine<'_>,
    count: u64,
    state: &mut RawState,
    words: &mut [u32],
) -> Result<(), AllocError>
    requires base { machine.base ≡ words.old }
    requires words { length words.old ≡ MEMORY_WORDS }
    ensures moved { OnOk result (IsMoved machine.entry.state count state.new words.new) }
    ensures unchanged { OnErr result ((state.new ≡ state.old) × (words.new ≡ words.old)) }
{
    // The contract of `owned` states that a memory has all its words.
    let _owned = machine.memory().owned(0);
    let (cpu, devices, delta) = machine.close()?;
    *state = state_of(count, &cpu, &devices);
    write_delta(&delta, words);
    Ok(())
}

/// Copies the words into pages, starts a machine on these with `parts`, and records it.
fn record_parts(
    alloc: Global,
    parts: (Cpu, Devices),
    state: &mut RawState,
    words: &mut [u32],
    inputs: &Inputs,
    records: &mut [RawRecord],
) -> Result<(), AllocError>
    requires cpu { cpu_state parts.0 ≡ cpu_of state.old }
    requires devices { parts.1 ≡ devices_of state.old }
    requires whole { IsWhole state.old words.old }
    requires short { state.old.count + length records.old < 2 ^ 64 }
    ensures each { OnOk result
        (AreRecorded (length records.new) records.new inputs.now state.old.count (state_of state.old words.old)) }
    ensures moved { OnOk result
        (IsMoved (run_of inputs.now state.old.count (length records.new) (state_of state.old words.old))
        (state.old.count + length records.new) state.new words.new) }
    ensures unchanged { OnErr result ((state.new ≡ state.old) × (words.new ≡ words.old)) }
    ensures first { OnErr result
        (AreFirstRecorded inputs.now state.old.count (state_of state.old words.old) records.old records.new) }
    ensures count { length records.new ≡ length records.old }
{
    let (pool, table) = paged(alloc, words)?;
    let (cpu, devices) = parts;
    let mut machine = Machine::start(alloc, &pool, &table, cpu, devices)?;
    record_machine(alloc, &mut machine, inputs, state.count, records)?;
    let end = state.count + records.len() as u64;
    move_to(machine, end, state, words)
}

/// Tests all numbers before it allocates.
fn record(
    alloc: Global,
    state: &mut RawState,
    words: &mut [u32],
    inputs: &[RawInput],
    records: &mut [RawRecord],
) -> Result<(), RangeOrMemory>
    ensures recorded { OnOk result (HasRecorded inputs.now state.old words.old state.new words.new records.new) }
    ensures written { OnOk result (IsWritten state.new words.new) }
    ensures count { length records.new ≡ length records.old }
    ensures in_range { OnOk result (IsInRecordsRange inputs.now state.old words.old records.old) }
    ensures memory { IfErr result (λ refusal.
        refusal ≢ RangeOrMemory.Range → IsInRecordsRange inputs.now state.old words.old records.old) }
    ensures range { IfErr result (λ refusal.
        refusal ≡ RangeOrMemory.Range → ¬ (IsInRecordsRange inputs.now state.old words.old records.old)) }
    ensures unchanged { OnErr result ((state.new ≡ state.old) × (words.new ≡ words.old)) }
    ensures unrecorded { IfErr result (λ refusal. refusal ≡ RangeOrMemory.Range → records.new ≡ records.old) }
    ensures first { IfErr result (λ refusal.
        refusal ≡ RangeOrMemory.Memory → HasRecordedFirst inputs.now state.old words.old records.old records.new) }
{
    if state.count > u64::MAX - records.len() as u64 {
        return Err(RangeOrMemory::Range);
    }
    if !are_in_order(inputs) {
        return Err(RangeOrMemory::Range);
    }
    let Some(parts) = parts_of(state, words) else {
        return Err(RangeOrMemory::Range);
    };
    let inputs = inputs_of(alloc, inputs)?;
    record_parts(alloc, parts, state, words, &inputs, records)?;
    Ok(())
}

/// Runs a machine from the count of its state on, as many instructions as there are records, with the inputs of these counts and
/// perhaps others, and writes what each does to `records`: first that of the state's count. The bytes that the machine sends are in the
/// records alone. Returns 0 (`DONE`); the state and the words are then those after the last of them.
///
/// Otherwise the state and the words stay as they are, and the result is 1 (`OUT_OF_RANGE`) if `words` is not of 262,144 words, the
/// count of the state and the length of `records` together are 2^64 or more, a number of the state or of an input is out of its range,
/// or the inputs' counts fall or are above 2^40; then nothing is written. It is 3 (`OUT_OF_MEMORY`) if all is in range and memory ran
/// out; then the records of some first counts are written, and the rest of `records` is as it was.
#[unsafe(no_mangle)]
pub extern "C" fn galluspa_records(
    alloc: Global,
    state: &mut RawState,
    words: &mut [u32],
    inputs: &[RawInput],
    records: &mut [RawRecord],
) -> u8
    ensures recorded { result ≡ DONE → HasRecorded inputs.now state.old words.old state.new words.new records.new }
    ensures written { result ≡ DONE → IsWritten state.new words.new }
    ensures count { length records.new ≡ length records.old }
    ensures unchanged { result ≢ DONE → (state.new ≡ state.old) × (words.new ≡ words.old) }
    ensures unrecorded { result ≡ OUT_OF_RANGE → records.new ≡ records.old }
    ensures first { result ≡ OUT_OF_MEMORY → HasRecordedFirst inputs.now state.old words.old records.old records.new }
    ensures in_range { result ≢ OUT_OF_RANGE → IsInRecordsRange inputs.now state.old words.old records.old }
    ensures range { result ≡ OUT_OF_RANGE → ¬ (IsInRecordsRange inputs.now state.old words.old records.old) }
    ensures codes { (result ≤ OUT_OF_RANGE) ⊎ (result ≡ OUT_OF_MEMORY) }
{
    match record(alloc, state, words, inputs, records) {
        Ok(()) => DONE,
        Err(RangeOrMemory::Range) => OUT_OF_RANGE,
        Err(RangeOrMemory::Memory) => OUT_OF_MEMORY,
    }
}
