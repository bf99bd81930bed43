//! Recordings that tests of several crates use. All of them are true.

use crate::claim::{Claim, FIRST_PAGE, ZEROS};
use crate::sketch::{Event, Sketch};

/// The word of a jump to itself.
pub const JUMP: u32 = 0xE7FF_FFFF;

/// No page, no input, and checkpoint 0 alone.
pub const EMPTY: Sketch<'static> = Sketch {
    pages: &[],
    events: &[],
    claims: &[ZEROS],
};

/// A jump to itself in ten segments of ten steps.
pub const JUMPS: Sketch<'static> = Sketch {
    pages: &[&[JUMP]],
    events: &[],
    claims: &[
        FIRST_PAGE,
        Claim {
            count: 10,
            ..FIRST_PAGE
        },
        Claim {
            count: 20,
            ..FIRST_PAGE
        },
        Claim {
            count: 30,
            ..FIRST_PAGE
        },
        Claim {
            count: 40,
            ..FIRST_PAGE
        },
        Claim {
            count: 50,
            ..FIRST_PAGE
        },
        Claim {
            count: 60,
            ..FIRST_PAGE
        },
        Claim {
            count: 70,
            ..FIRST_PAGE
        },
        Claim {
            count: 80,
            ..FIRST_PAGE
        },
        Claim {
            count: 90,
            ..FIRST_PAGE
        },
        Claim {
            count: 100,
            ..FIRST_PAGE
        },
    ],
};

/// A jump to itself, while the disk answers 1,000 at count 5, in a segment of ten steps. Only version 3 has a field for that.
pub const ANSWERED_JUMPS: Sketch<'static> = Sketch {
    pages: &[&[JUMP]],
    events: &[Event {
        count: 5,
        kind: 6,
        value: 1000,
    }],
    claims: &[
        FIRST_PAGE,
        Claim {
            count: 10,
            disk: 1000,
            ..FIRST_PAGE
        },
    ],
};

/// `MOV R0, 5` and then zeros, which are `MOV R0, R0`, with a checkpoint after 100 steps.
pub const STORED_RUN: Sketch<'static> = Sketch {
    pages: &[&[0x4000_0005]],
    events: &[],
    claims: &[
        FIRST_PAGE,
        Claim {
            count: 100,
            registers: &[(0, 5)],
            pc: 100,
            ..FIRST_PAGE
        },
    ],
};

/// A jump to itself, on two pages of equal content: the second replaces the first at checkpoint 1.
pub const EQUAL_PAGES: Sketch<'static> = Sketch {
    pages: &[&[JUMP], &[JUMP]],
    events: &[],
    claims: &[
        FIRST_PAGE,
        Claim {
            count: 10,
            table: &[(0, 2)],
            ..ZEROS
        },
    ],
};

/// Stores 41 hexadecimal into the device word that sends, and then jumps to itself.
pub const ONE_BYTE_SENT: Sketch<'static> = Sketch {
    pages: &[&[0x5100_FFC8, 0x4000_0041, 0xA010_0000, JUMP]],
    events: &[],
    claims: &[
        FIRST_PAGE,
        Claim {
            count: 2,
            registers: &[(0, 0x41), (1, 0xFFFF_FFC8)],
            pc: 2,
            ..FIRST_PAGE
        },
        Claim {
            count: 4,
            registers: &[(0, 0x41), (1, 0xFFFF_FFC8)],
            pc: 3,
            sent: b"A",
            ..FIRST_PAGE
        },
    ],
};
