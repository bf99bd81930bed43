//! Tests of conditions on a step: whether they may hold, by what is known before its instruction, and whether they do, by what is
//! known after it. Nothing of the processor has to be copied for it.
ghost use Rattle.std.specs.Prelude.{◌≡◌, ◌<◌, ◌≤◌, ◌↔◌, false, IfNone, IfSome, IsTrue, length, ℕ};
ghost use Rattle.risc_model.specs.MachineState.{cpu_state};
ghost use Rattle.risc_search.specs.Condition.{Accesses, IsWordOf};
ghost use Rattle.risc_search.specs.inner.Due.{HasKind};
ghost use Rattle.risc_search.specs.inner.Observed.{AreArmed, AreMetFrom, IsArmed, IsBefore, IsKnown, IsMetAfter, IsMetAt, NoneIsMet, armed_at, old_value};

use crate::access::{Access, next_instruction};
use crate::before::{Before, word_stored};
use crate::clauses::is_joined;
use crate::condition::{Clause, Condition};
use crate::register::writes_flag;
use crate::span::Span;
use crate::stored_word::StoredWord;
use crate::values::Values;
use risc_machine::Machine;
use risc_model::{Cpu, Event};
use risc_pages::{MEMORY_WORDS, Memory};

/// What is known of a clause before the instruction of a step.
#[derive(Clone, Copy)]
pub(crate) struct Armed {
    /// Whether its condition may hold.
    is_armed: bool,
    /// The bits whose change it looks for; 0 if it looks for none of a register.
    old: u32,
}

impl Armed {
    /// A clause whose condition does not hold.
    pub(crate) const NOT: Armed = Armed {
        is_armed: false,
        old: 0,
    };
}

/// Reports whether an instruction stores to a byte in the range, or else whether it loads one.
#[inline(always)]
fn accesses(access: Option<Access>, stores: bool, bytes: Span) -> bool
    ensures { IsTrue result ↔ Accesses stores bytes access }
{
    match access {
        Some(access) => access.stores == stores && bytes.meets(access.first, access.count),
        None => false,
    }
}

/// Reports whether an input of a kind is among those of a count.
fn has_kind(taken: &[Event], kind: u8) -> bool
    ensures { IsTrue result ↔ HasKind kind taken.now }
{
    for event in taken {
        if event.input.kind() == kind {
            return true;
        }
    }
    false
}

/// Reports whether the bits that a mask names of the word of RAM with a number have one of these values.
#[inline(always)]
fn is_word(memory: &Memory<'_>, number: u32, mask: u32, values: Values) -> bool
    ensures { IsTrue result ↔ IsWordOf memory.now.words number mask values }
{
    number < MEMORY_WORDS && values.contains(memory.read(number) & mask)
}

/// Reports whether a condition may hold at a step, by what is known before its instruction.
#[inline(always)]
fn is_armed(condition: Condition, before: &Before, machine: &Machine<'_>, taken: &[Event]) -> bool
    requires { IsBefore before.now machine.now.state }
    ensures { IsTrue result ↔ IsArmed condition machine.now.state taken.now }
{
    let cpu = machine.cpu();
    match condition {
        Condition::Counter(words) => cpu.stop == 0 && words.contains(cpu.pc),
        Condition::Store(bytes) => accesses(before.access, true, bytes),
        Condition::Change(_, _) => word_stored(before.access).is_some(),
        Condition::Load(bytes) => accesses(before.access, false, bytes),
        Condition::Becomes(register, value) => register.value(cpu) != value,
        Condition::Sends => true,
        Condition::SendsByte(_) => true,
        Condition::Takes(kind) => cpu.stop == 0 && has_kind(taken, kind),
        Condition::Stops => cpu.stop == 0,
        Condition::Writes(register) => match next_instruction(cpu, machine.memory()) {
            Some(instruction) => register.is_written_by(instruction, cpu.flags),
            None => false,
        },
        Condition::WritesFlags(mask) => match next_instruction(cpu, machine.memory()) {
            Some(instruction) => writes_flag(mask, instruction, cpu.flags),
            None => false,
        },
        Condition::Alters(_, _) => true,
        Condition::Is(register, values) => cpu.stop == 0 && values.contains(register.value(cpu)),
        Condition::IsWord(number, mask, values) => cpu.stop == 0
            && is_word(machine.memory(), number, mask, values),
    }
}

/// Returns the bits of a register whose change a condition looks for, or 0 if it looks for no such change.
#[inline(always)]
fn old_value(condition: Condition, cpu: &Cpu) -> u32
    ensures { result ≡ old_value condition (cpu_state cpu.now) }
{
    match condition {
        Condition::Alters(register, mask) => register.masked(cpu, mask),
        _ => 0,
    }
}

/// Returns what is known of a condition before the instruction of a step.
#[inline(always)]
fn known(condition: Condition, before: &Before, machine: &Machine<'_>, taken: &[Event]) -> Armed
    requires { IsBefore before.now machine.now.state }
    ensures { IsKnown condition machine.now.state taken.now result }
{
    Armed {
        is_armed: is_armed(condition, before, machine, taken),
        old: old_value(condition, machine.cpu()),
    }
}

/// Reports whether a condition that is armed holds, by its bits before the instruction, and by what is known after it.
#[inline(always)]
fn is_met(
    condition: Condition,
    old: u32,
    cpu: &Cpu,
    stored: Option<StoredWord>,
    sent: Option<u8>,
) -> bool
    ensures { IsTrue result ↔ IsMetAfter condition old (cpu_state cpu.now) stored sent }
{
    match condition {
        Condition::Counter(_) => true,
        Condition::Store(_) => true,
        Condition::Change(bytes, mask) => match stored {
            Some(word) => word.differs(bytes, mask),
            None => false,
        },
        Condition::Load(_) => true,
        Condition::Becomes(register, value) => register.value(cpu) == value,
        Condition::Sends => sent.is_some(),
        Condition::SendsByte(byte) => sent == Some(byte),
        Condition::Takes(_) => true,
        Condition::Stops => cpu.stop != 0,
        Condition::Writes(_) => cpu.stop == 0,
        Condition::WritesFlags(_) => cpu.stop == 0,
        Condition::Alters(register, mask) => register.masked(cpu, mask) != old,
        Condition::Is(_, _) => true,
        Condition::IsWord(_, _, _) => true,
    }
}

/// Notes what is known of each clause before an instruction. Reports whether any is armed.
#[inline(always)]
pub(crate) fn arm(
    conditions: &[Clause],
    before: &Before,
    machine: &Machine<'_>,
    taken: &[Event],
    armed: &mut [Armed],
) -> bool
    requires before { IsBefore before.now machine.now.state }
    requires armed { length conditions.now ≤ length armed.old }
    ensures armed { AreArmed conditions.now machine.now.state taken.now armed.new }
    ensures count { length armed.new ≡ length armed.old }
    ensures none { result ≡ false → (k : ℕ) → k < length conditions.now → ¬ (IsTrue (armed_at armed.new k).is_armed) }
{
    let mut any = false;
    for index in 0..conditions.len() {
        let known = known(conditions[index].condition, before, machine, taken);
        armed[index] = known;
        any |= known.is_armed;
    }
    any
}

/// Reports whether the clause at an index is armed and met.
#[inline(always)]
fn is_met_at(
    conditions: &[Clause],
    armed: &[Armed],
    index: usize,
    cpu: &Cpu,
    stored: Option<StoredWord>,
    sent: Option<u8>,
) -> bool
    requires inside { index < length conditions.now }
    requires armed { length conditions.now ≤ length armed.now }
    ensures { IsTrue result ↔ IsMetAt conditions.now armed.now (cpu_state cpu.now) stored sent index }
{
    let Armed { is_armed, old } = armed[index];
    is_armed && is_met(conditions[index].condition, old, cpu, stored, sent)
}

/// Reports whether a clause is armed and met: if none is, no condition is, whichever are joined.
#[inline(always)]
fn any_met(
    conditions: &[Clause],
    armed: &[Armed],
    cpu: &Cpu,
    stored: Option<StoredWord>,
    sent: Option<u8>,
) -> bool
    requires { length conditions.now ≤ length armed.now }
    ensures { result ≡ false →
        (k : ℕ) → k < length conditions.now → ¬ (IsMetAt conditions.now armed.now (cpu_state cpu.now) stored sent k) }
{
    for index in 0..conditions.len() {
        if is_met_at(conditions, armed, index, cpu, stored, sent) {
            return true;
        }
    }
    false
}

/// Returns the index of the first condition of which each clause is armed and met.
#[inline(always)]
pub(crate) fn first_met(
    conditions: &[Clause],
    armed: &[Armed],
    cpu: &Cpu,
    stored: Option<StoredWord>,
    sent: Option<u8>,
) -> Option<usize>
    requires { length conditions.now ≤ length armed.now }
    ensures met { IfSome result (AreMetFrom conditions.now armed.now (cpu_state cpu.now) stored sent) }
    ensures least { IfSome result (NoneIsMet conditions.now armed.now (cpu_state cpu.now) stored sent) }
    ensures none { IfNone result (NoneIsMet conditions.now armed.now (cpu_state cpu.now) stored sent (length conditions.now)) }
{
    if !any_met(conditions, armed, cpu, stored, sent) {
        return None;
    }
    first_joined(conditions, armed, cpu, stored, sent)
}

/// Returns the same index, by a look at each clause.
#[inline(never)]
fn first_joined(
    conditions: &[Clause],
    armed: &[Armed],
    cpu: &Cpu,
    stored: Option<StoredWord>,
    sent: Option<u8>,
) -> Option<usize>
    requires { length conditions.now ≤ length armed.now }
    ensures met { IfSome result (AreMetFrom conditions.now armed.now (cpu_state cpu.now) stored sent) }
    ensures least { IfSome result (NoneIsMet conditions.now armed.now (cpu_state cpu.now) stored sent) }
    ensures none { IfNone result (NoneIsMet conditions.now armed.now (cpu_state cpu.now) stored sent (length conditions.now)) }
{
    let mut first = 0;
    let mut all = true;
    for index in 0..conditions.len() {
        all &= is_met_at(conditions, armed, index, cpu, stored, sent);
        if !is_joined(conditions, index) {
            if all {
                return Some(first);
            }
            first = index + 1;
            all = true;
        }
    }
    None
}
