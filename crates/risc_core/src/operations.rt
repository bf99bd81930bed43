//! The numbers of operations, in bits 19 to 16 of formats F0 and F1. `arithmetic` and `sums` compute them.

/// Move of the operand, H or the flags.
pub const MOV: u8 = 0;

/// Left shift.
pub const LSL: u8 = 1;

/// Right shift that repeats the sign.
pub const ASR: u8 = 2;

/// Right rotation.
pub const ROR: u8 = 3;

/// Bitwise and.
pub const AND: u8 = 4;

/// Bitwise and of the first with the inverted second.
pub const ANN: u8 = 5;

/// Bitwise or.
pub const IOR: u8 = 6;

/// Bitwise exclusive or.
pub const XOR: u8 = 7;

/// The sum.
pub const ADD: u8 = 8;

/// The difference.
pub const SUB: u8 = 9;

/// The product, whose high half goes to H.
pub const MUL: u8 = 10;

/// The quotient, whose remainder goes to H. The operations after it, of floating point, stop the machine.
pub const DIV: u8 = 11;
