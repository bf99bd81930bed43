//! The numbers of conditions, in bits 27 to 24 of format F3. Bit 3 inverts the condition of the other three bits. `branch`
//! evaluates them.

/// Negative: N.
pub const MI: u8 = 0;

/// Equal or zero: Z.
pub const EQ: u8 = 1;

/// Carry set: C.
pub const CS: u8 = 2;

/// Overflow set: V.
pub const VS: u8 = 3;

/// Lower or the same, of words: C or Z.
pub const LS: u8 = 4;

/// Less than, of signed values: N xor V.
pub const LT: u8 = 5;

/// Less or equal, of signed values: (N xor V) or Z.
pub const LE: u8 = 6;

/// Always.
pub const ALWAYS: u8 = 7;

/// Positive or zero: not N.
pub const PL: u8 = 8;

/// Not equal: not Z.
pub const NE: u8 = 9;

/// Carry clear: not C.
pub const CC: u8 = 10;

/// Overflow clear: not V.
pub const VC: u8 = 11;

/// Higher, of words: neither C nor Z.
pub const HI: u8 = 12;

/// Greater or equal, of signed values: N equals V.
pub const GE: u8 = 13;

/// Greater than, of signed values: N equals V, and not Z.
pub const GT: u8 = 14;
