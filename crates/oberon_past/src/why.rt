//! Where the value of a part comes from, one link at a time: its last write, the value that this gave it, and the parts from which the
//! instruction computed it. A caller that asks about these parts again goes back as far as it likes.
ghost use Rattle.std.specs.Prelude.{◌≡◌, ◌<◌, ◌≤◌, ◌+◌, ◌-◌, ◌^◌, All, IfOk, IfSome, OnErr, Some, length, take};
ghost use Rattle.risc_devices.specs.KeyCodes.{oldest};
ghost use Rattle.risc_model.specs.MachineState.{cpu_state};
ghost use Rattle.risc_search.specs.Condition.{register_value};
ghost use Rattle.risc_search.specs.Effects.{next_word};
ghost use Rattle.oberon_past.specs.Links.{AdvancesWhy, IsComputation, IsLinkBy, IsWhy, IsWriteIn, asked_before, bits_of, input_value_at, parts_read};
ghost use Rattle.oberon_past.specs.Origins.{IsPart, set_by, value_of, word_in};
ghost use Rattle.oberon_past.specs.Past.{IsLonger};
ghost use Rattle.oberon_past.specs.Run.{state_at};
ghost use Rattle.oberon_past.specs.Search.{IsRange};

use crate::link::{Computation, Link, Why};
use crate::origins::{Origins, bits_written, no_parts, origins_of};
use crate::part::{Part, WriteKind};
use crate::past::Past;
use crate::steps::Steps;
use crate::write::{LastWrite, Write, Writer};
use risc_devices::{Devices, kinds};
use risc_machine::Machine;
use risc_model::{Cpu, Event};
use risc_pages::{MEMORY_WORDS, Memory};
use risc_search::Register;
use std::alloc::{AllocError, Global};

impl Past {
    /// Finds where the value of a part before the count `before` comes from.
    ///
    /// After `More(count)`, ask again with the count in place of `before`: there is no later write. Each `More` has added a keyframe or
    /// searched a part of the range, so asking again ends.
    ///
    /// It does as many instructions as `write`, and beside these at most four spacings. If memory runs out, keyframes may have been added.
    pub fn why(
        &mut self,
        alloc: Global,
        part: Part,
        before: u64,
        budget: Steps,
    ) -> Result<Why, AllocError>
        // It is the last write in the one run, with the value that it gave and the parts from which it was computed.
        ensures why { IfOk result (IsWhy self.old.run self.old.end part before) }
        // Only a question about counts of the past can fail.
        ensures inside { OnErr result (IsRange self.old.run self.old.end self.old.run.start before) }
        // The past is of the same run, with keyframes added.
        ensures longer { IsLonger self.old self.new }
        // Asking again ends.
        ensures advances { IfOk result (AdvancesWhy self.old self.new before) }
    {
        match self.write(alloc, part, WriteKind::Any, before, budget)? {
            LastWrite::Done(write) => Ok(Why::Done(self.link(alloc, part, write)?)),
            LastWrite::More(at) => Ok(Why::More(at)),
            LastWrite::OutOfRange(fault) => Ok(Why::OutOfRange(fault)),
        }
    }

    /// Returns the link of a part by its last write.
    fn link(&self, alloc: Global, part: Part, write: Option<Write>) -> Result<Link, AllocError>
        requires { IfSome write (IsWriteIn self.now.run) }
        ensures { IfOk result (IsLinkBy self.now.run part write) }
    {
        let Some(write) = write else {
            let first = self.extent().first;
            return Ok(Link {
                value: self.value(alloc, part, first)?,
                write: None,
                computation: None,
            });
        };
        self.link_by(alloc, part, write)
    }

    /// Returns the link of a part by a write.
    fn link_by(&self, alloc: Global, part: Part, write: Write) -> Result<Link, AllocError>
        requires { IsWriteIn self.now.run write }
        ensures { IfOk result (IsLinkBy self.now.run part (Some write)) }
    {
        match write.by {
            Writer::Input(index) => Ok(Link {
                value: input_value(self.inputs.events(), index),
                write: Some(write),
                computation: None,
            }),
            Writer::Instruction => {
                let value = self.value(alloc, part, write.count + 1)?;
                let computation = self.computation(alloc, part, write.count)?;
                Ok(Link {
                    value,
                    write: Some(write),
                    computation: Some(computation),
                })
            }
        }
    }

    /// Returns the value of a part at a count.
    fn value(&self, alloc: Global, part: Part, count: u64) -> Result<u32, AllocError>
        requires { self.now.run.start ≤ count }
        ensures { IfOk result (λ value. value ≡ value_of part (state_at self.now.run count)) }
    {
        let machine = self.machine(alloc, count)?;
        Ok(value_in(part, &machine))
    }

    /// Returns how the instruction of a count writes a part.
    fn computation(&self, alloc: Global, part: Part, count: u64) -> Result<Computation, AllocError>
        requires { self.now.run.start ≤ count }
        ensures { IfOk result (IsComputation part (state_at self.now.run count)) }
    {
        let machine = self.machine(alloc, count)?;
        Ok(computation_in(part, &machine))
    }
}

/// Returns the count before which to ask about one of the parts that the instruction of a count reads: this count; or the next one for a
/// part that inputs set, since the machine takes the inputs of a count before its instruction.
pub fn asked_before(part: Part, count: u64) -> u64
    requires { count < 2 ^ 64 - 1 }
    ensures { result ≡ asked_before part count }
{
    match part {
        Part::Inputs(_) => count + 1,
        Part::Register(_, _) => count,
        Part::Word(_, _) => count,
        Part::Leds => count,
        Part::Stop => count,
    }
}

/// Returns the value of an input.
fn input_value(events: &[Event], index: usize) -> u32
    requires { index < length events.now }
    ensures { result ≡ input_value_at events.now index }
{
    events[index].input.value()
}

/// Returns the value of a part of a machine.
#[tactic(auto, unfolding(crate::specs::Origins::values_of))]
fn value_in(part: Part, machine: &Machine<'_>) -> u32
    ensures { result ≡ value_of part machine.now.state }
{
    match part {
        Part::Register(register, mask) => register_value(register, machine.cpu()) & mask,
        Part::Word(number, mask) => word_value(number, machine.memory()) & mask,
        Part::Leds => machine.devices().leds() as u32,
        Part::Inputs(kind) => set_value(kind, machine.devices()),
        Part::Stop => machine.cpu().stop as u32,
    }
}

/// Returns the value of a register; 0 of one that does not exist.
fn register_value(register: Register, cpu: &Cpu) -> u32
    ensures { result ≡ register_value register (cpu_state cpu.now) }
{
    match register {
        Register::Numbered(number) => match cpu.r.get(number as usize) {
            Some(value) => *value,
            None => 0,
        },
        Register::Auxiliary => cpu.h,
        Register::Flags => cpu.flags.number(),
    }
}

/// Returns the value of a word of RAM; 0 of one that does not exist.
fn word_value(number: u32, memory: &Memory<'_>) -> u32
    ensures { result ≡ word_in memory.now.words number }
{
    if number >= MEMORY_WORDS {
        return 0;
    }
    memory.read(number)
}

/// Returns what inputs of a kind set; of key codes the oldest, or 0 if none waits.
#[tactic(auto, unfolding(crate::specs::Origins::set_by))]
fn set_value(kind: u8, devices: &Devices) -> u32
    ensures { result ≡ oldest (set_by kind devices.now) }
{
    match kind {
        kinds::TIMER => devices.timer(),
        kinds::SWITCHES => devices.switches() as u32,
        kinds::MOUSE => devices.mouse(),
        kinds::KEY => oldest_key(devices.keys()),
        kinds::SERIAL => devices.serial() as u32,
        kinds::DISK => devices.disk(),
        _ => 0,
    }
}

/// Returns the oldest key code, or 0.
fn oldest_key(keys: &[u8]) -> u32
    ensures { result ≡ oldest keys.now }
{
    match keys.first() {
        Some(code) => *code as u32,
        None => 0,
    }
}

/// Returns how the next instruction of a machine writes a part.
fn computation_in(part: Part, machine: &Machine<'_>) -> Computation
    ensures { IsComputation part machine.now.state result }
{
    let cpu = machine.cpu();
    let word = next_word(cpu, machine.memory());
    Computation {
        pc: cpu.pc,
        word,
        bits: bits_by(part, word, &cpu.r),
        origins: parts_read(word, &cpu.r),
    }
}

/// Returns the word of the next instruction of a machine with this processor and memory.
#[tactic(auto, unfolding(risc_search::specs::Effects::next_word))]
fn next_word(cpu: &Cpu, memory: &Memory<'_>) -> Option<u32>
    ensures { result ≡ next_word (cpu_state cpu.now) memory.now.words }
{
    if cpu.stop != 0 || cpu.pc >= MEMORY_WORDS {
        return None;
    }
    Some(memory.read(cpu.pc))
}

/// Returns the parts from which the instruction of a word computes what it writes, if there is one.
#[tactic(auto, unfolding(crate::specs::Links::parts_read))]
fn parts_read(word: Option<u32>, registers: &[u32; 16]) -> Origins
    ensures list { take result.count result.list ≡ parts_read word registers.now }
    ensures few { result.count ≤ 3 }
    ensures parts { All IsPart result.list }
{
    match word {
        Some(word) => origins_of(word, registers),
        None => no_parts(),
    }
}

/// Returns the bits of a part that the instruction of a word writes, if there is one.
#[tactic(auto, unfolding(crate::specs::Links::bits_of))]
fn bits_by(part: Part, word: Option<u32>, registers: &[u32; 16]) -> u32
    ensures { result ≡ bits_of part word registers.now }
{
    match word {
        Some(word) => bits_written(part, word, registers),
        None => u32::MAX,
    }
}
