//! Steps that report what they do: the records of a trace.
ghost use Rattle.std.specs.Prelude.{◌≡◌, ◌<◌, ◌+◌, ◌-◌, ◌*◌, ◌%◌, ◌^◌, true, IfOk, OnErr, OnOk, slice_index};
ghost use Rattle.risc_core.specs.Word.{field};
ghost use Rattle.risc_machine.specs.Allocation.{Keeps, MayFail};
ghost use Rattle.risc_model.specs.Exec.{exec};
ghost use Rattle.risc_model.specs.InputOrder.{IsNextAt};
ghost use Rattle.risc_model.specs.MachineState.{cpu_state};
ghost use Rattle.risc_model.specs.Replay.{fed, feed};
ghost use Rattle.risc_search.specs.Access.{next_access};
ghost use Rattle.risc_search.specs.Effects.{IsEffect, accessed_by, accessed_in, next_word, word_with};
ghost use Rattle.risc_search.specs.inner.Due.{IsQuiet};
ghost use Rattle.risc_search.specs.inner.Accesses.{IsAccess, IsCount, IsReachable};

use crate::access::{Access, accessed};
use risc_core::{DEVICES, RAM_END, decode};
use risc_devices::Devices;
use risc_machine::Machine;
use risc_model::{Cpu, Event, Inputs};
use risc_pages::{MEMORY_WORDS, Memory};
use std::alloc::{AllocError, Global};

/// What an instruction accesses, with the value of these bytes before it and after it.
#[derive(Clone, Copy, Debug, PartialEq, Eq)]
pub struct Accessed {
    /// The bytes that it loads or stores.
    pub access: Access,
    /// Their value before it, as a load of them gives it after the inputs of the count.
    pub old: u32,
    /// What it stores. A load leaves them as they are.
    pub new: u32,
}

/// What the step of a count does.
#[derive(Clone, Copy, Debug, PartialEq, Eq)]
pub struct Effect {
    /// The word of its instruction; none if the machine is stopped, or its program counter is beyond RAM.
    pub word: Option<u32>,
    /// What the instruction accesses, if anything.
    pub accessed: Option<Accessed>,
    /// The byte that it sends, if any.
    pub sent: Option<u8>,
    /// The index of the first input of this count or of a later one.
    pub inputs_from: usize,
    /// The number of inputs from there on that the machine takes before the instruction.
    pub inputs_count: usize,
}

/// Returns the index of the first input after those of the count `at`, which begin at the index `next`.
#[inline(always)]
pub fn inputs_after(events: &[Event], next: usize, at: u64) -> usize
    requires { IsNextAt events.now next at }
    ensures { IsNextAt events.now result (at + 1) }
{
    for index in next..events.len() {
        if events[index].count != at {
            return index;
        }
    }
    events.len()
}

/// Returns the word of the next instruction of a machine.
#[inline(always)]
#[tactic(auto, unfolding(crate::specs::Effects::next_word))]
fn next_word(cpu: &Cpu, memory: &Memory<'_>) -> Option<u32>
    ensures { result ≡ next_word (cpu_state cpu.now) memory.now.words }
{
    if cpu.stop != 0 || cpu.pc >= MEMORY_WORDS {
        return None;
    }
    Some(memory.read(cpu.pc))
}

/// Returns the devices of a machine after the inputs of the count `at`, which are those from the index `next` up to `end`.
#[cold]
fn fed_devices(machine: &Machine<'_>, events: &[Event], at: u64, next: usize, end: usize) -> Devices
    requires next { IsNextAt events.now next at }
    requires end { IsNextAt events.now end (at + 1) }
    ensures { result ≡ fed events.now at machine.now.state.devices }
{
    let mut devices = machine.devices().copy();
    for index in next..end {
        devices.take(events[index].input);
    }
    devices
}

/// Returns the word with the byte at an address, after the inputs of a count.
#[inline(always)]
#[tactic(auto, unfolding(crate::specs::Effects::word_with))]
fn word_with(
    machine: &Machine<'_>,
    events: &[Event],
    at: u64,
    next: usize,
    end: usize,
    address: u32,
) -> u32
    requires running { machine.now.state.cpu.stop ≡ 0 }
    requires next { IsNextAt events.now next at }
    requires end { IsNextAt events.now end (at + 1) }
    requires inside { IsReachable address }
    ensures { result ≡ word_with (feed events.now at machine.now.state) address }
{
    if address < RAM_END {
        return machine.memory().read(address / 4);
    }
    let mut devices = fed_devices(machine, events, at, next, end);
    devices.read((address - DEVICES >> 2) as u8)
}

/// Returns the lowest bytes of a value, of which there are as many as an access has.
#[inline(always)]
fn low_bytes(value: u32, count: u32) -> u32
    requires { IsCount count }
    ensures { result ≡ value % 2 ^ (8 * count) }
{
    if count == 1 { value % 0x100 } else { value }
}

/// Returns the number of the register that a word which stores names.
#[inline(always)]
fn stored_register(word: u32) -> u8
    ensures value { result ≡ field word 24 4 }
    ensures range { result < 16 }
{
    (word >> 24 & 0xF) as u8
}

/// Returns an access of the next instruction, whose word is given, with the value of its bytes before and after it.
#[inline(always)]
fn accessed_in(
    machine: &Machine<'_>,
    events: &[Event],
    at: u64,
    next: usize,
    end: usize,
    word: u32,
    access: Access,
) -> Accessed
    requires running { machine.now.state.cpu.stop ≡ 0 }
    requires next { IsNextAt events.now next at }
    requires end { IsNextAt events.now end (at + 1) }
    requires word { word ≡ slice_index machine.now.state.words machine.now.state.cpu.pc }
    requires access { IsAccess access }
    ensures { result ≡ accessed_in (feed events.now at machine.now.state) access }
{
    let there = word_with(machine, events, at, next, end, access.first);
    let old = low_bytes(there >> 8 * (access.first % 4), access.count);
    if !access.stores {
        return Accessed {
            access,
            old,
            new: old,
        };
    }
    let register = machine.cpu().r[stored_register(word) as usize];
    let new = low_bytes(register, access.count);
    Accessed { access, old, new }
}

/// Returns what the next instruction of a machine accesses, if anything, by its word.
#[inline(always)]
fn accessed_by(
    machine: &Machine<'_>,
    events: &[Event],
    at: u64,
    next: usize,
    end: usize,
    word: Option<u32>,
) -> Option<Accessed>
    requires next { IsNextAt events.now next at }
    requires end { IsNextAt events.now end (at + 1) }
    requires word { word ≡ next_word machine.now.state.cpu machine.now.state.words }
    ensures { result ≡
        accessed_by (feed events.now at machine.now.state) (next_access machine.now.state.cpu machine.now.state.words) }
{
    let word = word?;
    let access = accessed(decode(word), &machine.cpu().r)?;
    Some(accessed_in(machine, events, at, next, end, word, access))
}

/// Does the step of a count. Returns the byte that it sends.
#[inline(always)]
fn step(
    alloc: Global,
    machine: &mut Machine<'_>,
    inputs: &Inputs,
    at: u64,
    is_quiet: bool,
) -> Result<Option<u8>, AllocError>
    requires below { at < 2 ^ 64 - 1 }
    requires quiet { is_quiet ≡ true → IsQuiet inputs.now at (at + 1) }
    ensures done { IfOk result (λ sent. exec (feed inputs.now at machine.old.state) ≡ (machine.new.state, sent)) }
    ensures cause { OnErr result (MayFail machine.new) }
    ensures kept { Keeps machine.old machine.new }
{
    if is_quiet {
        return machine.step();
    }
    let mut sent = Vec::new(alloc);
    let Ok(()) = machine.run(inputs, at, at + 1, &mut sent) else {
        return Err(AllocError);
    };
    Ok(sent.first().copied())
}

/// Does the step of a count, whose inputs are those from the index `next` up to, but not including, `end`. Returns what it does.
///
/// Fails only if memory runs out.
#[inline(always)]
pub fn step_with_effect(
    alloc: Global,
    machine: &mut Machine<'_>,
    inputs: &Inputs,
    at: u64,
    next: usize,
    end: usize,
) -> Result<Effect, AllocError>
    requires below { at < 2 ^ 64 - 1 }
    requires next { IsNextAt inputs.now next at }
    requires end { IsNextAt inputs.now end (at + 1) }
    ensures effect { IfOk result (λ effect. IsEffect effect inputs.now at machine.old.state) }
    ensures state { OnOk result (machine.new.state ≡ (exec (feed inputs.now at machine.old.state)).0) }
    ensures cause { OnErr result (MayFail machine.new) }
    ensures kept { Keeps machine.old machine.new }
{
    let word = next_word(machine.cpu(), machine.memory());
    let accessed = accessed_by(machine, inputs.events(), at, next, end, word);
    let inputs_count = if machine.cpu().stop == 0 {
        end - next
    } else {
        0
    };
    let sent = step(alloc, machine, inputs, at, next == end)?;
    Ok(Effect {
        word,
        accessed,
        sent,
        inputs_from: next,
        inputs_count,
    })
}
