//! Where a value comes from: the parts from which the instruction that wrote it computed it.
ghost use Rattle.std.specs.Prelude.{◌≡◌, ◌<◌, ◌≤◌, [], ◌∷◌, All, take};
ghost use Rattle.risc_core.specs.Instruction.{HasFields, instruction_of};
ghost use Rattle.risc_core.specs.Place.{IsInside};
ghost use Rattle.oberon_past.specs.declared.part.Part.{Part};
ghost use Rattle.oberon_past.specs.Origins.{IsPart, accessed_bits, bits_stored, bits_written, device_parts, flags_written, has_carry, kind_read, loaded_parts, moved_part, operand_parts, origins_of, register_bits, register_part};

use crate::part::Part;
use risc_core::operations::{ADD, DIV, MOV, SUB};
use risc_core::{Instr, Place, decode, place};
use risc_devices::{kinds, words};
use risc_search::Register;

/// All bits of a word.
const ALL_BITS: u32 = u32::MAX;

/// C in the number of the flags.
const CARRY: u32 = 2;

/// The parts from which an instruction computes what it writes: the first `count` of the list.
#[derive(Clone, Copy, Debug, PartialEq, Eq)]
pub struct Origins {
    /// The parts, and then fillers.
    pub list: [Part; 3],
    /// How many parts there are, from 0 to 3.
    pub count: usize,
}

/// Returns the parts from which the instruction of a word computes what it writes, by the registers before it: its operands, what it
/// loads, the carry if it takes part, and the register of the address of a load or store.
pub fn origins_of(word: u32, registers: &[u32; 16]) -> Origins
    ensures list { take result.count result.list ≡ origins_of (instruction_of word) registers.now }
    ensures few { result.count ≤ 3 }
    ensures parts { All IsPart result.list }
{
    computed_from(decode(word), registers)
}

/// Returns the bits of a part that the instruction of a word writes if it writes the part, by the registers before it.
pub fn bits_written(part: Part, word: u32, registers: &[u32; 16]) -> u32
    ensures { result ≡ bits_written part (instruction_of word) registers.now }
{
    match part {
        Part::Register(register, mask) => register_bits(register, mask, decode(word)),
        Part::Word(_, mask) => bits_stored(decode(word), registers) & mask,
        Part::Leds => 0xFF,
        Part::Inputs(_) => 0,
        Part::Stop => ALL_BITS,
    }
}

/// Returns which bits of a register an instruction that writes it writes.
fn register_bits(register: Register, mask: u32, instruction: Instr) -> u32
    ensures { result ≡ register_bits register mask instruction }
{
    match register {
        Register::Flags => flags_written(instruction) & mask,
        Register::Numbered(_) => mask,
        Register::Auxiliary => mask,
    }
}

/// Returns no parts.
pub(crate) fn no_parts() -> Origins
    ensures list { take result.count result.list ≡ [] }
    ensures few { result.count ≤ 3 }
    ensures parts { All IsPart result.list }
{
    Origins {
        list: [Part::Stop; 3],
        count: 0,
    }
}

fn one(part: Part) -> Origins
    requires { IsPart part }
    ensures list { take result.count result.list ≡ part ∷ [] }
    ensures few { result.count ≤ 3 }
    ensures parts { All IsPart result.list }
{
    Origins {
        list: [part, Part::Stop, Part::Stop],
        count: 1,
    }
}

fn two(first: Part, second: Part) -> Origins
    requires first { IsPart first }
    requires second { IsPart second }
    ensures list { take result.count result.list ≡ first ∷ second ∷ [] }
    ensures few { result.count ≤ 3 }
    ensures parts { All IsPart result.list }
{
    Origins {
        list: [first, second, Part::Stop],
        count: 2,
    }
}

fn three(first: Part, second: Part, third: Part) -> Origins
    requires first { IsPart first }
    requires second { IsPart second }
    requires third { IsPart third }
    ensures list { take result.count result.list ≡ first ∷ second ∷ third ∷ [] }
    ensures few { result.count ≤ 3 }
    ensures parts { All IsPart result.list }
{
    Origins {
        list: [first, second, third],
        count: 3,
    }
}

fn register_part(number: u8) -> Part
    requires { number < 16 }
    ensures part { result ≡ register_part number }
    ensures there { IsPart result }
{
    Part::Register(Register::Numbered(number), ALL_BITS)
}

/// Reports whether the carry takes part in an operation.
fn has_carry(op: u8, u: bool) -> bool
    ensures { result ≡ has_carry op u }
{
    u && (op == ADD || op == SUB)
}

/// Returns what a move to a register moves.
fn moved_part(u: bool, v: bool, c: u8) -> Part
    requires { c < 16 }
    ensures part { result ≡ moved_part u v c }
    ensures there { IsPart result }
{
    if !u {
        return register_part(c);
    }
    if v {
        return Part::Register(Register::Flags, 15);
    }
    Part::Register(Register::Auxiliary, ALL_BITS)
}

/// Returns the bits of a word that a load or store accesses.
fn accessed_bits(byte: bool, lane: u8) -> u32
    requires { lane < 4 }
    ensures bits { result ≡ accessed_bits byte lane }
    ensures some { 0 < result }
{
    if byte {
        0xFF << 8 * lane as u32
    } else {
        ALL_BITS
    }
}

/// Returns the kind of inputs that sets what a device word reads, or 0.
fn kind_read(word: u8) -> u8
    ensures kind { result ≡ kind_read word }
    ensures range { result ≤ 6 }
{
    match word {
        words::TIMER => kinds::TIMER,
        words::SWITCHES => kinds::SWITCHES,
        words::SERIAL_DATA => kinds::SERIAL,
        words::SERIAL_STATUS => kinds::SERIAL,
        words::SPI_DATA => kinds::DISK,
        words::MOUSE => kinds::MOUSE,
        words::KEYBOARD => kinds::KEY,
        _ => 0,
    }
}

/// Returns what a device word reads, and then another part.
fn device_parts(word: u8, other: Part) -> Origins
    requires { IsPart other }
    ensures list { take result.count result.list ≡ device_parts word (other ∷ []) }
    ensures few { result.count ≤ 3 }
    ensures parts { All IsPart result.list }
{
    if word == words::MOUSE {
        return three(Part::Inputs(kinds::MOUSE), Part::Inputs(kinds::KEY), other);
    }
    match kind_read(word) {
        0 => one(other),
        kind => two(Part::Inputs(kind), other),
    }
}

/// Returns what a load loads from a place, and then the register of its address.
#[tactic(auto, unfolding(crate::specs::Origins::loaded_parts))]
fn loaded_parts(target: Place, lane: u8, byte: bool, base: u8) -> Origins
    requires lane { lane < 4 }
    requires base { base < 16 }
    requires inside { IsInside target }
    ensures list { take result.count result.list ≡ loaded_parts target lane byte base }
    ensures few { result.count ≤ 3 }
    ensures parts { All IsPart result.list }
{
    let base = register_part(base);
    match target {
        Place::Ram(word) => two(Part::Word(word, accessed_bits(byte, lane)), base),
        Place::Device(word) => device_parts(word, base),
        Place::Nowhere => one(base),
    }
}

/// Returns the operands of an operation on two registers.
fn register_operands(op: u8, u: bool, b: u8, c: u8) -> Origins
    requires b { b < 16 }
    requires c { c < 16 }
    ensures list { take result.count result.list ≡ operand_parts op u b (register_part c ∷ []) }
    ensures few { result.count ≤ 3 }
    ensures parts { All IsPart result.list }
{
    if op > DIV {
        return no_parts();
    }
    if has_carry(op, u) {
        let carry = Part::Register(Register::Flags, CARRY);
        return three(register_part(b), carry, register_part(c));
    }
    two(register_part(b), register_part(c))
}

/// Returns the operands of an operation on a register and a number.
fn immediate_operands(op: u8, u: bool, b: u8) -> Origins
    requires { b < 16 }
    ensures list { take result.count result.list ≡ operand_parts op u b [] }
    ensures few { result.count ≤ 3 }
    ensures parts { All IsPart result.list }
{
    if op > DIV {
        return no_parts();
    }
    if has_carry(op, u) {
        return two(register_part(b), Part::Register(Register::Flags, CARRY));
    }
    one(register_part(b))
}

/// Returns the parts from which an instruction computes what it writes.
#[tactic(auto, unfolding(crate::specs::Origins::origins_of))]
fn computed_from(instruction: Instr, registers: &[u32; 16]) -> Origins
    requires { HasFields instruction }
    ensures list { take result.count result.list ≡ origins_of instruction registers.now }
    ensures few { result.count ≤ 3 }
    ensures parts { All IsPart result.list }
{
    match instruction {
        Instr::Reg { op, u, v, b, c, .. } => {
            if op == MOV {
                return one(moved_part(u, v, c));
            }
            register_operands(op, u, b, c)
        }
        Instr::Imm { op, u, b, .. } => {
            if op == MOV {
                return no_parts();
            }
            immediate_operands(op, u, b)
        }
        Instr::Load { byte, b, off, .. } => {
            let (target, lane) = place(registers[b as usize], off);
            loaded_parts(target, lane, byte, b)
        }
        Instr::Store { a, b, .. } => two(register_part(a), register_part(b)),
        Instr::BranchReg { .. } => no_parts(),
        Instr::BranchOff { .. } => no_parts(),
    }
}

/// Returns which flags an instruction that writes flags writes.
#[tactic(auto, unfolding(crate::specs::Origins::flags_written))]
fn flags_written(instruction: Instr) -> u32
    ensures { result ≡ flags_written instruction }
{
    let is_sum = match instruction {
        Instr::Reg { op, .. } => op == ADD || op == SUB,
        Instr::Imm { op, .. } => op == ADD || op == SUB,
        Instr::Load { .. } => false,
        Instr::Store { .. } => false,
        Instr::BranchReg { .. } => false,
        Instr::BranchOff { .. } => false,
    };
    if is_sum { 15 } else { 12 }
}

/// Returns which bits of its word a store writes, by the registers before it.
#[tactic(auto, unfolding(crate::specs::Origins::bits_stored))]
fn bits_stored(instruction: Instr, registers: &[u32; 16]) -> u32
    requires { HasFields instruction }
    ensures { result ≡ bits_stored instruction registers.now }
{
    match instruction {
        Instr::Store { byte, b, off, .. } => {
            let (_, lane) = place(registers[b as usize], off);
            accessed_bits(byte, lane)
        }
        Instr::Load { .. } => 0,
        Instr::Reg { .. } => 0,
        Instr::Imm { .. } => 0,
        Instr::BranchReg { .. } => 0,
        Instr::BranchOff { .. } => 0,
    }
}
