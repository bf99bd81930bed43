//! The disk on the SPI bus. Its answers are inputs, so it is not a part of the machine (this project's own choice).

/// What device word 4 reads before the disk's first answer: the lines of a bus that nothing drives are high.
pub const UNANSWERED: u32 = 255;
