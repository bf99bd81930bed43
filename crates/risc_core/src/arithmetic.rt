//! The operations of formats F0 and F1 ("The RISC Architecture", N. Wirth): moves, shifts, logic, products and quotients. Sums
//! and differences are in `sums`. Which registers an operation reads and writes is defined with the machine.
ghost use Rattle.std.specs.Prelude.{◌≡◌, false, ◌<◌, ◌≤◌, Ok, ◌-◌, ◌^◌, pos, ◌<ℤ◌, ◌↔◌, ◌≢◌};
ghost use Rattle.risc_core.specs.declared.flags.Flags.{Flags};
ghost use Rattle.risc_core.specs.Word.{signed, floor_div, floor_mod};
ghost use Rattle.risc_core.specs.Arithmetic.{outcome_of, output_of, sum_output, moved_value, shifted_right};
ghost use Rattle.risc_core.specs.Arithmetic.{rotated, product, product_of, dividend, quotient_of, flags_word};

use crate::flags::{Flags, written};
use crate::operations::{ADD, AND, ANN, ASR, DIV, IOR, LSL, MUL, ROR, SUB, XOR};
use crate::stop::Stop;
use crate::sums::{Sum, add, signed, subtract};

/// Masks the low 32 bits of a 64-bit number.
const WORD_MASK: u64 = 0xFFFF_FFFF;

/// Bits 7 to 0 of the word that a move of the flags produces (this project's own choice).
const FLAGS_MARK: u32 = 0x53;

/// The result of an operation.
#[derive(Clone, Copy, Debug, PartialEq, Eq)]
pub struct AluOut {
    /// The value for the register R.a.
    pub value: u32,
    /// The auxiliary register H.
    pub h: u32,
    /// The flags in full; N and Z are those of the value.
    pub flags: Flags,
}

/// Computes operation `op` on the word `b` and the operand `c`, from the values of H and the flags before it.
///
/// The operations are MOV, LSL, ASR, ROR, AND, ANN, IOR, XOR, ADD, SUB, MUL and DIV ("The RISC Architecture", N. Wirth). `u` and
/// `v` are bits 29 and 28 of the instruction, and `imm` says whether the operand is immediate.
///
/// Returns the stop `Float` exactly for operations 12 to 15, and `Divisor` exactly for DIV by an operand whose signed value is
/// below 1. The stops, the rules for C and V, DIV with `u`, and MOV of the flags are this project's own choice.
#[inline(always)]
#[tactic(auto, unfolding(crate::specs::Arithmetic::outcome_of, crate::specs::Arithmetic::sum_of))]
pub const fn alu(
    op: u8,
    u: bool,
    imm: bool,
    v: bool,
    b: u32,
    c: u32,
    h: u32,
    flags: Flags,
) -> Result<AluOut, Stop>
    requires { op < 16 }
    ensures value { result ≡ outcome_of op u imm v b c h flags }
    ensures float { (result ≡ Err Stop.Float) ↔ (12 ≤ op) }
    ensures divisor { (result ≡ Err Stop.Divisor) ↔ ((op ≡ DIV) × (signed c <ℤ pos 1)) }
{
    match op {
        ADD => Ok(sum_output(add(u, b, c, flags.c), h, flags)),
        SUB => Ok(sum_output(subtract(u, b, c, flags.c), h, flags)),
        _ => alu_beside_sums(op, u, imm, v, b, c, h, flags),
    }
}

/// Computes an operation other than ADD and SUB, as `alu` defines it.
#[inline(always)]
#[tactic(auto, using(crate::proofs::BitLemmas::bitwise), unfolding(crate::specs::Arithmetic::outcome_of))]
const fn alu_beside_sums(
    op: u8,
    u: bool,
    imm: bool,
    v: bool,
    b: u32,
    c: u32,
    h: u32,
    flags: Flags,
) -> Result<AluOut, Stop>
    requires op { op < 16 }
    requires not_add { op ≢ ADD }
    requires not_subtract { op ≢ SUB }
    ensures value { result ≡ outcome_of op u imm v b c h flags }
    ensures float { (result ≡ Err Stop.Float) ↔ (12 ≤ op) }
    ensures divisor { (result ≡ Err Stop.Divisor) ↔ ((op ≡ DIV) × (signed c <ℤ pos 1)) }
{
    match op {
        MUL => Ok(multiply(u, b, c, flags)),
        DIV => divide(u, b, c, flags),
        _ => {
            if op < ADD {
                Ok(output(simple_value(op, u, imm, v, b, c, h, flags), h, flags))
            } else {
                Err(Stop::Float)
            }
        }
    }
}

/// Computes MOV, a shift or a logical operation: operations 0 to 7, which keep H, C and V.
#[inline(always)]
#[tactic(auto, using(crate::proofs::BitLemmas::bitwise), unfolding(crate::specs::Arithmetic::outcome_of))]
pub const fn simple_value(
    op: u8,
    u: bool,
    imm: bool,
    v: bool,
    b: u32,
    c: u32,
    h: u32,
    flags: Flags,
) -> u32
    requires { op < ADD }
    ensures { outcome_of op u imm v b c h flags ≡ Ok (output_of result h flags) }
{
    match op {
        LSL => b << (c & 31),
        ASR => shift_right(b, c),
        ROR => rotate(b, c),
        AND => b & c,
        ANN => b & !c,
        IOR => b | c,
        XOR => b ^ c,
        _ => moved_value(u, imm, v, c, h, flags),
    }
}

/// Returns the result of an operation with the value `value`.
#[inline(always)]
const fn output(value: u32, h: u32, flags: Flags) -> AluOut
    ensures { result ≡ output_of value h flags }
{
    AluOut {
        value,
        h,
        flags: written(flags, value),
    }
}

/// Returns the result of ADD or SUB.
#[inline(always)]
const fn sum_output(sum: Sum, h: u32, flags: Flags) -> AluOut
    ensures { result ≡ sum_output sum h flags }
{
    let after = Flags {
        n: flags.n,
        z: flags.z,
        c: sum.carry,
        v: sum.overflow,
    };
    output(sum.value, h, after)
}

/// Returns the operand of MOV. An immediate is already extended to a word, so if u is set its lower half is the field im.
#[inline(always)]
const fn moved_value(u: bool, imm: bool, v: bool, c: u32, h: u32, flags: Flags) -> u32
    ensures { result ≡ moved_value u imm v c h flags }
{
    if !u {
        c
    } else if imm {
        c << 16
    } else if v {
        flags_word(flags)
    } else {
        h
    }
}

#[inline]
#[tactic(auto, using(crate::proofs::WordLemmas::packed_is))]
const fn flags_word(flags: Flags) -> u32
    ensures { result ≡ flags_word flags }
{
    (flags.n as u32) << 31
        | (flags.z as u32) << 30
        | (flags.c as u32) << 29
        | (flags.v as u32) << 28
        | FLAGS_MARK
}

/// Shifts `b` right by the low five bits of `c`, and repeats the sign.
#[inline(always)]
const fn shift_right(b: u32, c: u32) -> u32
    ensures { result ≡ shifted_right b c }
{
    (b.cast_signed() >> (c & 31)).cast_unsigned()
}

/// Rotates `b` right by the low five bits of `c`.
#[inline(always)]
#[tactic(auto, using(crate::proofs::WordLemmas::rotated_is))]
const fn rotate(b: u32, c: u32) -> u32
    ensures { result ≡ rotated b c }
{
    b.rotate_right(c & 31)
}

#[inline(always)]
const fn full_product(u: bool, b: u32, c: u32) -> u64
    ensures { result ≡ floor_mod (product u b c) (2 ^ 64) }
{
    if u {
        b as u64 * c as u64
    } else {
        (signed(b) * signed(c)).cast_unsigned()
    }
}

/// Computes MUL, operation 10.
#[inline]
#[tactic(auto, using(crate::proofs::WordLemmas::product_is))]
pub const fn multiply(u: bool, b: u32, c: u32, flags: Flags) -> AluOut
    ensures { result ≡ product_of u b c flags }
{
    let product = full_product(u, b, c);
    output((product & WORD_MASK) as u32, (product >> 32) as u32, flags)
}

/// Returns the floor quotient by a positive divisor, and the remainder.
#[inline(always)]
const fn divide_down(u: bool, b: u32, c: u32) -> (u32, u32)
    requires positive { 0 < c }
    requires signed { c < 2 ^ 31 }
    ensures quotient { result.0 ≡ floor_mod (floor_div (dividend u b) c) (2 ^ 32) }
    ensures remainder { result.1 ≡ floor_mod (dividend u b) c }
{
    if u {
        return (b / c, b % c);
    }
    let dividend = b.cast_signed();
    let divisor = c.cast_signed();
    (
        dividend.div_euclid(divisor).cast_unsigned(),
        dividend.rem_euclid(divisor).cast_unsigned(),
    )
}

/// Returns the quotient and the remainder of DIV of signed values, by a positive divisor.
#[inline(always)]
#[tactic(auto, unfolding(crate::specs::Arithmetic::quotient_of))]
pub const fn quotient(b: u32, c: u32) -> (u32, u32)
    requires positive { 0 < c }
    requires signed { c < 2 ^ 31 }
    ensures { (flags : Flags) → quotient_of false b c flags ≡ Ok (output_of result.0 result.1 flags) }
{
    divide_down(false, b, c)
}

/// Computes DIV, which is rare and slow, so it is kept out of the code of the others.
#[cold]
#[inline(never)]
const fn divide(u: bool, b: u32, c: u32, flags: Flags) -> Result<AluOut, Stop>
    ensures value { result ≡ quotient_of u b c flags }
    ensures not_float { result ≢ Err Stop.Float }
    ensures stops { (result ≡ Err Stop.Divisor) ↔ (signed c <ℤ pos 1) }
{
    if c.cast_signed() < 1 {
        return Err(Stop::Divisor);
    }
    let (quotient, remainder) = divide_down(u, b, c);
    Ok(output(quotient, remainder, flags))
}
