//! The bytes that an instruction loads or stores.
ghost use Rattle.std.specs.Prelude.{◌≡◌, IfSome};
ghost use Rattle.risc_core.specs.Place.{address_of};
ghost use Rattle.risc_model.specs.MachineState.{cpu_state};
ghost use Rattle.risc_core.specs.Instruction.{HasFields};
ghost use Rattle.risc_search.specs.Access.{access_at, accessed, next_access, next_instruction};

use risc_core::{DEVICES, Instr, Place, decode, place};
use risc_model::Cpu;
use risc_pages::{MEMORY_WORDS, Memory};

/// The bytes that an instruction loads or stores: one, or the four of a word.
#[derive(Clone, Copy, Debug, PartialEq, Eq)]
pub struct Access {
    /// Whether the instruction stores them. If not, it loads them.
    pub stores: bool,
    /// The address of the first byte, below 2^24.
    pub first: u32,
    /// The number of bytes: 1 or 4.
    pub count: u32,
}

/// Returns the access to an address: of the base and the offset.
#[inline(always)]
#[tactic(auto, unfolding(crate::specs::Access::access_to))]
fn access_at(stores: bool, byte: bool, base: u32, off: i32) -> Option<Access>
    ensures { result ≡ access_at stores byte (address_of base off) }
{
    let (target, lane) = place(base, off);
    let base = match target {
        Place::Ram(number) => 4 * number,
        Place::Device(number) => DEVICES + 4 * number as u32,
        Place::Nowhere => return None,
    };
    if byte {
        let first = base + lane as u32;
        Some(Access {
            stores,
            first,
            count: 1,
        })
    } else {
        Some(Access {
            stores,
            first: base,
            count: 4,
        })
    }
}

/// Returns what an instruction accesses, by the registers before it.
#[inline(always)]
#[tactic(auto, unfolding(crate::specs::Access::accessed))]
pub(crate) fn accessed(instruction: Instr, registers: &[u32; 16]) -> Option<Access>
    requires { HasFields instruction }
    ensures { result ≡ accessed instruction registers.now }
{
    match instruction {
        Instr::Load { byte, b, off, .. } => access_at(false, byte, registers[b as usize], off),
        Instr::Store { byte, b, off, .. } => access_at(true, byte, registers[b as usize], off),
        Instr::Reg { .. } => None,
        Instr::Imm { .. } => None,
        Instr::BranchReg { .. } => None,
        Instr::BranchOff { .. } => None,
    }
}

/// Returns what the next instruction of a machine with this processor and memory accesses.
#[inline(always)]
#[tactic(auto, unfolding(crate::specs::Access::next_access))]
pub(crate) fn next_access(cpu: &Cpu, memory: &Memory<'_>) -> Option<Access>
    ensures { result ≡ next_access (cpu_state cpu.now) memory.now.words }
{
    if cpu.stop != 0 || cpu.pc >= MEMORY_WORDS {
        return None;
    }
    accessed(decode(memory.read(cpu.pc)), &cpu.r)
}

/// Returns the next instruction of a machine with this processor and memory.
#[inline(always)]
#[tactic(auto, unfolding(crate::specs::Access::next_instruction))]
pub(crate) fn next_instruction(cpu: &Cpu, memory: &Memory<'_>) -> Option<Instr>
    ensures instruction { result ≡ next_instruction (cpu_state cpu.now) memory.now.words }
    ensures fields { IfSome result HasFields }
{
    if cpu.stop != 0 || cpu.pc >= MEMORY_WORDS {
        return None;
    }
    Some(decode(memory.read(cpu.pc)))
}
