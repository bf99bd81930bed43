//! The watch of a search: which instructions concern none of its conditions, so that the machine does them at full speed.
ghost use Rattle.std.specs.Prelude.{◌≡◌, ◌<◌, ◌^◌, true, false, IfSome, IsTrue, length, ℕ};
ghost use Rattle.risc_search.specs.Clauses.{begins};
ghost use Rattle.risc_search.specs.Condition.{Accesses};
ghost use Rattle.risc_search.specs.Span.{IsIn};
ghost use Rattle.risc_search.specs.inner.Joined.{IsClauseOf};
ghost use Rattle.risc_search.specs.inner.Concerns.{CoverAll, Covers, CoversFrom, CoversRegister, Includes, IsIgnored, IsNamed, written};

use crate::access::{Access, accessed};
use crate::clauses::{begins, is_joined};
use crate::condition::{Clause, Condition};
use crate::register::Register;
use crate::span::{ALL, NONE, Span};
use risc_core::{Instr, LINK_REGISTER, decode};
use risc_machine::Watch;

/// The number of registers.
const REGISTERS: u8 = 16;

/// What the conditions of a search speak of, as far as an instruction and the registers before it tell. It may have more than they
/// speak of: the instructions that it has are looked at one by one.
#[derive(Clone, Copy)]
pub(crate) struct Concerns {
    /// Word numbers of instructions.
    counters: Span,
    /// Bytes to which instructions store.
    stores: Span,
    /// Bytes that they load.
    loads: Span,
    /// Which of R0 to R15 they write.
    registers: [bool; 16],
}

/// Returns the number of the register that an instruction writes, if it does not stop the machine.
#[inline(always)]
#[tactic(auto, unfolding(crate::specs::inner::Concerns::written))]
fn written(instruction: Instr) -> Option<u8>
    ensures { result ≡ written instruction }
{
    match instruction {
        Instr::Reg { a, .. } => Some(a),
        Instr::Imm { a, .. } => Some(a),
        Instr::Load { a, .. } => Some(a),
        Instr::Store { .. } => None,
        Instr::BranchReg { link, .. } => if link { Some(LINK_REGISTER) } else { None },
        Instr::BranchOff { link, .. } => if link { Some(LINK_REGISTER) } else { None },
    }
}

/// Returns an estimate of how many of 2^18 instructions a condition concerns. Only speed depends on it.
fn cost(condition: Condition) -> u32 {
    match condition {
        Condition::Counter(words) => words.count(),
        // Four bytes to a word; and each eighth instruction stores, or loads.
        Condition::Store(bytes) => bytes.count() / 32,
        Condition::Change(bytes, _) => bytes.count() / 32,
        Condition::Load(bytes) => bytes.count() / 32,
        Condition::Becomes(register, _) => cost_of_writes(register),
        Condition::Sends => 0,
        Condition::SendsByte(_) => 0,
        Condition::Takes(_) => 0,
        Condition::Stops => 0,
        Condition::Writes(register) => cost_of_writes(register),
        Condition::WritesFlags(_) => cost_of_writes(Register::Flags),
        Condition::Alters(register, _) => cost_of_writes(register),
        Condition::Is(_, _) => 1 << 18,
        Condition::IsWord(_, _, _) => 1 << 18,
    }
}

/// Returns the same estimate of the writes of a register: `Concerns::with_register` takes each instruction for H and the flags.
fn cost_of_writes(register: Register) -> u32 {
    match register {
        Register::Numbered(_) => 1 << 15,
        Register::Auxiliary => 1 << 18,
        Register::Flags => 1 << 18,
    }
}

/// Returns the index of the clause that concerns the fewest instructions, by the estimate, of those that are joined from an index on.
fn cheapest(conditions: &[Clause], first: usize) -> usize
    requires { first < length conditions.now }
    ensures { IsClauseOf conditions.now first result }
{
    let mut best = first;
    let mut index = first;
    while is_joined(conditions, index) && index + 1 < conditions.len() {
        index += 1;
        if cost(conditions[index].condition) < cost(conditions[best].condition) {
            best = index;
        }
    }
    best
}

impl Concerns {
    /// Returns what no condition speaks of.
    fn none() -> Concerns {
        Concerns {
            counters: NONE,
            stores: NONE,
            loads: NONE,
            registers: [false; 16],
        }
    }

    /// Returns this with each instruction.
    fn with_all(self) -> Concerns
        ensures all { (n : ℕ) → n < 2 ^ 18 → IsIn result.counters n }
        ensures includes { Includes result self }
    {
        let mut concerns = self;
        concerns.counters = concerns.counters.joined(ALL);
        concerns
    }

    /// Returns this with the instructions that write a register. H and the flags have no watch of their own.
    fn with_register(self, register: Register) -> Concerns
        ensures covers { CoversRegister result register }
        ensures includes { Includes result self }
    {
        match register {
            Register::Numbered(number) if number < REGISTERS => {
                let mut concerns = self;
                concerns.registers[number as usize] = true;
                concerns
            }
            _ => self.with_all(),
        }
    }

    /// Returns this with the instructions that a condition speaks of.
    fn with(self, condition: Condition) -> Concerns
        ensures covers { Covers result condition }
        ensures includes { Includes result self }
    {
        let mut concerns = self;
        match condition {
            Condition::Counter(words) => concerns.counters = concerns.counters.joined(words),
            Condition::Store(bytes) => concerns.stores = concerns.stores.joined(bytes),
            Condition::Change(bytes, _) => concerns.stores = concerns
                .stores
                .joined(bytes.of_words()),
            Condition::Load(bytes) => concerns.loads = concerns.loads.joined(bytes),
            Condition::Becomes(register, _) => return self.with_register(register),
            Condition::Sends => {}
            Condition::SendsByte(_) => {}
            Condition::Takes(_) => {}
            Condition::Stops => {}
            Condition::Writes(register) => return self.with_register(register),
            Condition::WritesFlags(_) => return self.with_register(Register::Flags),
            Condition::Alters(register, _) => return self.with_register(register),
            Condition::Is(_, _) => return self.with_all(),
            Condition::IsWord(_, _, _) => return self.with_all(),
        }
        concerns
    }

    /// Returns this with the instructions at which a condition may hold that begins at an index: with those that its cheapest clause
    /// speaks of. At others that clause does not hold, whatever those do that it is joined with.
    fn with_joined(self, conditions: &[Clause], first: usize) -> Concerns
        requires { first < length conditions.now }
        ensures covers { IsTrue (begins conditions.now first) → CoversFrom result conditions.now first }
        ensures includes { Includes result self }
    {
        if !begins(conditions, first) {
            return self;
        }
        let index = cheapest(conditions, first);
        self.with(conditions[index].condition)
    }

    /// Returns what a list of conditions speaks of.
    pub(crate) fn of(conditions: &[Clause]) -> Concerns
        ensures { CoverAll result conditions.now }
    {
        let mut concerns = Concerns::none();
        for index in 0..conditions.len() {
            concerns = concerns.with_joined(conditions, index);
        }
        concerns
    }

    /// Reports whether the writes of a register are of concern.
    #[inline(always)]
    fn has_register(&self, register: Option<u8>) -> bool
        ensures { result ≡ false → IfSome register (λ a. IsNamed self.now a ≡ false) }
    {
        match register {
            Some(number) => match self.registers.get(number as usize) {
                Some(named) => *named,
                None => true,
            },
            None => false,
        }
    }

    /// Reports whether an access is of concern.
    #[inline(always)]
    fn has_access(&self, access: Option<Access>) -> bool
        ensures stores { result ≡ false → ¬ (Accesses true self.now.stores access) }
        ensures loads { result ≡ false → ¬ (Accesses false self.now.loads access) }
    {
        match access {
            Some(access) => {
                let bytes = if access.stores {
                    self.stores
                } else {
                    self.loads
                };
                bytes.meets(access.first, access.count)
            }
            None => false,
        }
    }
}

impl Watch for Concerns {
    ghost ignored = { λ concerns pc r word. IsIgnored concerns pc r word };

    #[inline(always)]
    fn ignores(&self, pc: u32, registers: &[u32; 16], word: u32) -> bool {
        let instruction = decode(word);
        !self.counters.contains(pc)
            && !self.has_register(written(instruction))
            && !self.has_access(accessed(instruction, registers))
    }
}
