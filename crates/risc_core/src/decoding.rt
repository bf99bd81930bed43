//! Decoding of a word into its instruction ("The RISC Architecture", N. Wirth; formats F0 to F3).
ghost use Rattle.std.specs.Prelude.{◌≡◌, ◌%◌, ◌^◌};
ghost use Rattle.risc_core.specs.Word.{field};
ghost use Rattle.risc_core.specs.Instruction.{extended, register_instruction, immediate_instruction};
ghost use Rattle.risc_core.specs.Instruction.{memory_instruction, branch_instruction, instruction_of, HasFields};

use crate::instruction::Instr;
use crate::word::{is_set, nibble, signed_20, signed_22};

/// Decodes a word. Every word is one instruction; bits that its format does not name have no effect.
///
/// Bits 31 and 30 choose the format.
#[inline(always)]
pub const fn decode(w: u32) -> Instr
    ensures value { result ≡ instruction_of w }
    ensures fields { HasFields result }
{
    if is_set(w, 31) {
        if is_set(w, 30) {
            branch_instruction(w)
        } else {
            memory_instruction(w)
        }
    } else if is_set(w, 30) {
        immediate_instruction(w)
    } else {
        register_instruction(w)
    }
}

/// Decodes a word of format F0.
#[inline(always)]
const fn register_instruction(w: u32) -> Instr
    ensures value { result ≡ register_instruction w }
    ensures fields { HasFields result }
{
    Instr::Reg {
        op: nibble(w, 16),
        u: is_set(w, 29),
        v: is_set(w, 28),
        a: nibble(w, 24),
        b: nibble(w, 20),
        c: nibble(w, 0),
    }
}

/// Decodes a word of format F1.
#[inline(always)]
const fn immediate_instruction(w: u32) -> Instr
    ensures value { result ≡ immediate_instruction w }
    ensures fields { HasFields result }
{
    let v = is_set(w, 28);
    Instr::Imm {
        op: nibble(w, 16),
        u: is_set(w, 29),
        v,
        a: nibble(w, 24),
        b: nibble(w, 20),
        im: immediate(w, v),
    }
}

/// Decodes a word of format F2, in which bit 29 chooses between a load and a store.
#[inline(always)]
const fn memory_instruction(w: u32) -> Instr
    ensures value { result ≡ memory_instruction w }
    ensures fields { HasFields result }
{
    let byte = is_set(w, 28);
    let a = nibble(w, 24);
    let b = nibble(w, 20);
    let off = signed_20(w);
    if is_set(w, 29) {
        Instr::Store { byte, a, b, off }
    } else {
        Instr::Load { byte, a, b, off }
    }
}

/// Decodes a word of format F3, in which bit 29 chooses between a branch by an offset and one to a register.
#[inline(always)]
const fn branch_instruction(w: u32) -> Instr
    ensures value { result ≡ branch_instruction w }
    ensures fields { HasFields result }
{
    let cond = nibble(w, 24);
    let link = is_set(w, 28);
    if is_set(w, 29) {
        let off = signed_22(w);
        Instr::BranchOff { cond, link, off }
    } else {
        let c = nibble(w, 0);
        Instr::BranchReg { cond, link, c }
    }
}

/// Extends the low half of a word upward by `v`.
#[inline(always)]
const fn immediate(w: u32, v: bool) -> u32
    ensures value { result ≡ extended (field w 0 16) v }
    ensures extended { result ≡ extended (result % 2 ^ 16) v }
{
    let im = w & 0xFFFF;
    if v { im | 0xFFFF_0000 } else { im }
}
