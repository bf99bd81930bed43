//! Verdicts that do not depend on the schedule of the workers.

use super::gates::{EACH_OTHER, Hold};
use super::held::{held_line, held_verdict};
use super::jumps::{LEDS, Written, jumps};
use oberon_check::{Part, Verdict};
use std::alloc::Global;
use std::process::Abort;
use std::sync::Wait;
use std::test::Fail;
use std::thread::Threads;

const FALSE_AT_ONCE: (&[u8], u8) = (b"false checkpoint 1 at 10 part LEDs\n", 1);

const FALSE_FIRST: Verdict = Verdict::FalseAt {
    checkpoint: 1,
    count: 10,
    part: Part::Leds,
};

/// Checks the verdict on a recording, the line of its file, and how many held jobs met the others, with two workers.
fn hold<R: Abort + Threads + Wait + Sync>(
    rt: &R,
    alloc: Global,
    written: &Written<'_>,
    holds: &[Hold<'_>],
    (verdict, line, met): (Verdict, (&[u8], u8), u64),
) -> Result<(), Fail> {
    is_held(rt, alloc, written, holds, (verdict, met))?;
    let met_by_line = held_line(rt, alloc, written, holds, line)?;
    assert!(rt;
        met_by_line == met,
        "the line met others another number of times"
    );
    Ok(())
}

/// Checks the verdict on a recording, and how many held jobs met the others.
fn is_held<R: Abort + Threads + Wait + Sync>(
    rt: &R,
    alloc: Global,
    written: &Written<'_>,
    holds: &[Hold<'_>],
    (verdict, met): (Verdict, u64),
) -> Result<(), Fail> {
    let (found, met_by_verdict) = held_verdict(rt, alloc, written, holds)?;
    assert!(rt; found == verdict, "another verdict");
    assert!(rt;
        met_by_verdict == met,
        "the verdict met others another number of times"
    );
    Ok(())
}

/// The first job is held until all others have begun.
const FIRST_LAST: [Hold<'static>; 1] = [Hold {
    job: 0,
    awaits: &[1, 2, 3, 4, 5, 6, 7, 8, 9],
}];

/// Checkpoints 1 and 7 are false, and the first job is held until all others have begun. So checkpoint 7 is found false long
/// before checkpoint 1.
#[test]
fn the_first_job_waits_for_all_others(rt: HostRuntime) -> Result<(), Fail> {
    for version in [1, 2] {
        let written = Written {
            recording: jumps(10),
            changes: &[(1, LEDS), (7, LEDS)],
            version,
        };
        let expected = (FALSE_FIRST, FALSE_AT_ONCE, 1);
        hold(&rt, rt.alloc(), &written, &FIRST_LAST, expected)?;
    }
    Ok(())
}

const TWO_ACCEPTED: Verdict = Verdict::Accepted {
    checkpoints: 2,
    steps: 20,
};

const TWO_ACCEPTED_LINE: (&[u8], u8) = (b"accepted 2 checkpoints 20 steps\n", 0);

#[test]
fn workers_meet(rt: HostRuntime) -> Result<(), Fail> {
    for version in [1, 2] {
        let written = Written {
            recording: jumps(2),
            changes: &[],
            version,
        };
        let expected = (TWO_ACCEPTED, TWO_ACCEPTED_LINE, 2);
        hold(&rt, rt.alloc(), &written, &EACH_OTHER, expected)?;
    }
    Ok(())
}
