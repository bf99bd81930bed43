//! The registers that a search can watch.
ghost use Rattle.std.specs.Prelude.{◌≡◌, ◌↔◌, IsTrue, None, Some, if◌then◌else◌};
ghost use Rattle.risc_core.specs.Arithmetic.{and_word};
ghost use Rattle.risc_core.specs.Instruction.{HasFields};
ghost use Rattle.risc_model.specs.MachineState.{cpu_state};
ghost use Rattle.risc_search.specs.Condition.{IsWrittenBy, register_value, writes_carry, writes_flag};
ghost use Rattle.risc_core.specs.Written.{written_register, writes_auxiliary};

use risc_core::operations::{ADD, DIV, MUL, SUB};
use risc_core::{Flags, Instr, LINK_REGISTER, is_set, taken};
use risc_model::Cpu;

/// A register of the processor ("The RISC Architecture", N. Wirth).
#[derive(Clone, Copy, Debug, PartialEq, Eq)]
pub enum Register {
    /// One of R0 to R15, by its number. The others, which there are not, are always 0.
    Numbered(u8),
    /// The auxiliary register H.
    Auxiliary,
    /// The flags as one number: N is 8, Z 4, C 2, V 1.
    Flags,
}

impl Register {
    /// Returns the value of the register in a processor.
    #[inline]
    pub(crate) fn value(self, cpu: &Cpu) -> u32
        ensures { result ≡ register_value self (cpu_state cpu.now) }
    {
        match self {
            Register::Numbered(number) => match cpu.r.get(number as usize) {
                Some(value) => *value,
                None => 0,
            },
            Register::Auxiliary => cpu.h,
            Register::Flags => cpu.flags.number(),
        }
    }

    /// Returns the bits of the register that a mask names.
    #[inline]
    pub(crate) fn masked(self, cpu: &Cpu, mask: u32) -> u32
        ensures { result ≡ and_word (register_value self (cpu_state cpu.now)) mask }
    {
        self.value(cpu) & mask
    }

    /// Reports whether an instruction that does not stop the machine writes the register.
    #[inline]
    pub(crate) fn is_written_by(self, instruction: Instr, flags: Flags) -> bool
        requires { HasFields instruction }
        ensures { IsTrue result ↔ IsWrittenBy self instruction flags }
    {
        match self {
            Register::Numbered(number) => written_register(instruction, flags) == Some(number),
            Register::Auxiliary => writes_auxiliary(instruction),
            Register::Flags => written_register(instruction, flags).is_some(),
        }
    }
}

/// Returns which of R0 to R15 an instruction writes that does not stop the machine.
#[inline]
#[tactic(auto, unfolding(risc_core::specs::Written::written_register, risc_core::specs::Written::links))]
fn written_register(instruction: Instr, flags: Flags) -> Option<u8>
    requires { HasFields instruction }
    ensures { result ≡ written_register instruction flags }
{
    match instruction {
        Instr::Reg { a, .. } => Some(a),
        Instr::Imm { a, .. } => Some(a),
        Instr::Load { a, .. } => Some(a),
        Instr::Store { .. } => None,
        Instr::BranchReg { cond, link, .. } => linked(link && taken(cond, flags)),
        Instr::BranchOff { cond, link, .. } => linked(link && taken(cond, flags)),
    }
}

/// Returns the register of a link, if a branch links.
#[inline]
fn linked(links: bool) -> Option<u8>
    ensures { result ≡ if links then Some LINK_REGISTER else None }
{
    if links { Some(LINK_REGISTER) } else { None }
}

/// Reports whether an instruction that does not stop the machine writes one of the flags that a mask names.
#[inline]
#[tactic(auto, unfolding(crate::specs::Condition::writes_flag))]
pub(crate) fn writes_flag(mask: u32, instruction: Instr, flags: Flags) -> bool
    requires { HasFields instruction }
    ensures { result ≡ writes_flag mask instruction flags }
{
    let sign = is_set(mask, 3) || is_set(mask, 2);
    let carry = is_set(mask, 1) || is_set(mask, 0);
    sign && written_register(instruction, flags).is_some() || carry && writes_carry(instruction)
}

/// Reports whether an instruction that does not stop the machine writes C and V: a sum or a difference.
#[inline]
#[tactic(auto, unfolding(crate::specs::Condition::writes_carry))]
fn writes_carry(instruction: Instr) -> bool
    ensures { result ≡ writes_carry instruction }
{
    match instruction {
        Instr::Reg { op, .. } => op == ADD || op == SUB,
        Instr::Imm { op, .. } => op == ADD || op == SUB,
        Instr::Load { .. } => false,
        Instr::Store { .. } => false,
        Instr::BranchReg { .. } => false,
        Instr::BranchOff { .. } => false,
    }
}

/// Reports whether an instruction that does not stop the machine writes H: the high half of a product, or a remainder.
#[inline]
#[tactic(auto, unfolding(risc_core::specs::Written::writes_auxiliary))]
fn writes_auxiliary(instruction: Instr) -> bool
    ensures { result ≡ writes_auxiliary instruction }
{
    match instruction {
        Instr::Reg { op, .. } => op == MUL || op == DIV,
        Instr::Imm { op, .. } => op == MUL || op == DIV,
        Instr::Load { .. } => false,
        Instr::Store { .. } => false,
        Instr::BranchReg { .. } => false,
        Instr::BranchOff { .. } => false,
    }
}
