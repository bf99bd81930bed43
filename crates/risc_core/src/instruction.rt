//! Instructions with their fields. `decoding` decodes a word into one.

/// An instruction with its fields ("The RISC Architecture", N. Wirth; formats F0 to F3).
///
/// Registers `a`, `b` and `c`, operations `op` and conditions `cond` are below 16; `u` and `v` are bits 29 and 28 of the word.
/// `byte` says whether a byte is accessed instead of a word. `link` says whether a taken branch writes its link to R15.
#[derive(Clone, Copy, Debug, PartialEq, Eq)]
pub enum Instr {
    /// F0: operation `op` on R.b and R.c, the result to R.a.
    Reg {
        op: u8,
        u: bool,
        v: bool,
        a: u8,
        b: u8,
        c: u8,
    },
    /// F1: operation `op` on R.b and the immediate operand `im`, extended to a word, the result to R.a.
    Imm {
        op: u8,
        u: bool,
        v: bool,
        a: u8,
        b: u8,
        im: u32,
    },
    /// F2 with u = 0: R.a is loaded from the address R.b + `off`, a byte or a word; `off` is from -524,288 to 524,287.
    Load {
        byte: bool,
        a: u8,
        b: u8,
        off: i32,
    },
    /// F2 with u = 1: R.a is stored at the address R.b + `off`, a byte or a word; `off` is from -524,288 to 524,287.
    Store {
        byte: bool,
        a: u8,
        b: u8,
        off: i32,
    },
    /// F3 with u = 0: a branch to the address in R.c under the condition `cond`.
    BranchReg {
        cond: u8,
        link: bool,
        c: u8,
    },
    /// F3 with u = 1: a branch by `off` words, from -2,097,152 to 2,097,151, under the condition `cond`.
    BranchOff {
        cond: u8,
        link: bool,
        off: i32,
    },
}
