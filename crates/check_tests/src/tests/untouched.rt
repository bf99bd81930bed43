//! A segment of 2^40 steps that no worker may replay. A worker that replays the counting machine is ended only by the time limit of
//! the test; the idle machine's steps are skipped, so that alone would show nothing.

use super::gates::Hold;
use super::held::{held_line, held_verdict};
use super::jumps::Written;
use oberon_check::{Part, Verdict};
use oberon_format::MAX_COUNT;
use recording_texts::{Claim, FIRST_PAGE, JUMP, Sketch};
use std::test::Fail;

/// `ADD R0, R0, 1` and a branch back to it. So the machine never returns to a state, and no step is skipped.
const COUNTER: [u32; 2] = [0x4008_0001, 0xE7FF_FFFE];

/// A recording of an idle machine, with a false checkpoint 1 and a long segment after it.
const LONG: Sketch<'static> = Sketch {
    pages: &[&[JUMP]],
    events: &[],
    claims: &[
        FIRST_PAGE,
        Claim {
            count: 10,
            leds: 1,
            ..FIRST_PAGE
        },
        Claim {
            count: MAX_COUNT - 10,
            ..FIRST_PAGE
        },
        Claim {
            count: MAX_COUNT,
            ..FIRST_PAGE
        },
    ],
};

/// A recording of a machine that counts, with a false checkpoint 1 and a long segment after it.
const LONG_COUNT: Sketch<'static> = Sketch {
    pages: &[&COUNTER],
    events: &[],
    claims: &[
        FIRST_PAGE,
        Claim {
            count: 10,
            registers: &[(0, 5)],
            leds: 1,
            ..FIRST_PAGE
        },
        Claim {
            count: MAX_COUNT - 10,
            ..FIRST_PAGE
        },
        Claim {
            count: MAX_COUNT,
            ..FIRST_PAGE
        },
    ],
};

/// Returns these recordings in version 1 or 2.
fn long_recordings(version: u32) -> [Written<'static>; 2] {
    [
        Written {
            recording: LONG,
            changes: &[],
            version,
        },
        Written {
            recording: LONG_COUNT,
            changes: &[],
            version,
        },
    ]
}

/// The job of the long segment is held until the last job has begun. By then the false checkpoint was reported, so the long
/// segment is skipped.
const HOLDS: [Hold<'static>; 1] = [Hold {
    job: 1,
    awaits: &[2],
}];

const FALSE_AT_ONCE: Verdict = Verdict::FalseAt {
    checkpoint: 1,
    count: 10,
    part: Part::Leds,
};

const FALSE_LINE: (&[u8], u8) = (b"false checkpoint 1 at 10 part LEDs\n", 1);

#[test]
fn the_long_segment_after_a_false_checkpoint_is_skipped(rt: HostRuntime) -> Result<(), Fail> {
    for written in &long_recordings(1) {
        let (verdict, met) = held_verdict(&rt, rt.alloc(), written, &HOLDS)?;
        assert!(rt; verdict == FALSE_AT_ONCE, "another verdict");
        assert!(rt; met == 1, "the long segment met the last one {met} times");
    }
    Ok(())
}

#[test]
fn the_long_segment_of_a_file_is_skipped(rt: HostRuntime) -> Result<(), Fail> {
    for version in [1, 2] {
        for written in &long_recordings(version) {
            let met = held_line(&rt, rt.alloc(), written, &HOLDS, FALSE_LINE)?;
            assert!(rt;
                met == 1,
                "the long segment met the last one {met} times, version {version}"
            );
        }
    }
    Ok(())
}
