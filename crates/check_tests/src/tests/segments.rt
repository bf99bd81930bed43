//! Worked examples of segment verdicts, and of the verdicts collected from them.
ghost use Rattle.std.specs.Prelude.{◌≡◌, All, IfOk};

use super::jumps::{Change, FALSE_H, GIVEN_H, Written, jump_recording, jumps};
use oberon_check::{CollectFault, Part, SegmentVerdict, Verdict, collect, replay_segment};
use oberon_format::Recording;
use recording_texts::{EMPTY, Sketch};
use std::alloc::{AllocError, Global};
use std::test::Fail;

/// Replays segments, and returns their verdicts in the same order.
fn verdicts_of(
    alloc: Global,
    r: &Recording,
    segments: &[u32],
) -> Result<Vec<SegmentVerdict>, AllocError>
    ensures { IfOk result (λ vs. All (λ v. v.recording ≡ r.now) vs.items) }
{
    let mut verdicts = Vec::new(alloc);
    for segment in segments {
        if *segment >= r.count() - 1 {
            return Ok(verdicts);
        }
        let verdict = replay_segment(alloc, r, *segment)?;
        verdicts.push(verdict)?;
    }
    Ok(verdicts)
}

/// Reports whether verdicts have these segments and parts, in this order.
pub(crate) fn are_verdicts(verdicts: &[SegmentVerdict], expected: &[(u32, Option<Part>)]) -> bool {
    if verdicts.len() != expected.len() {
        return false;
    }
    for (verdict, (segment, part)) in verdicts.iter().zip(expected) {
        if verdict.segment() != *segment || verdict.part() != *part {
            return false;
        }
    }
    true
}

/// Reports whether the verdicts of the first three segments have these segments and parts, in this order.
fn has_verdicts(
    alloc: Global,
    r: &Recording,
    expected: &[(u32, Option<Part>)],
) -> Result<bool, AllocError> {
    let verdicts = verdicts_of(alloc, r, &[0, 1, 2])?;
    Ok(are_verdicts(verdicts.as_slice(), expected))
}

#[test]
fn segments_of_a_false_h(rt: HostRuntime) -> Result<(), Fail> {
    let r = jump_recording(rt.alloc(), 3, &GIVEN_H)?;
    let expected = [(0, None), (1, Some(Part::H)), (2, None)];
    let same = has_verdicts(rt.alloc(), &r, &expected)?;
    assert!(rt; same, "another segment or part");
    Ok(())
}

/// Returns what `collect` makes of the verdicts of these segments, in this order.
fn collect_some(
    alloc: Global,
    r: &Recording,
    segments: &[u32],
) -> Result<Result<Verdict, CollectFault>, AllocError> {
    let verdicts = verdicts_of(alloc, r, segments)?;
    Ok(collect(r, verdicts.as_slice()))
}

/// Reports whether `collect` makes this of the verdicts of these segments, in a recording with false claims.
fn is_collected(
    alloc: Global,
    (recording, changes): (Sketch<'_>, &[Change]),
    segments: &[u32],
    expected: Result<Verdict, CollectFault>,
) -> Result<bool, Fail> {
    let written = Written {
        recording,
        changes,
        version: 1,
    };
    let r = written.recording(alloc)?;
    Ok(collect_some(alloc, &r, segments)? == expected)
}

/// Segments of the recording with a false H, in the order of their verdicts, and what `collect` makes of them.
const COLLECTED: [(&[u32], Result<Verdict, CollectFault>); 5] = [
    (&[2, 0, 1], Ok(FALSE_H)),
    (&[0, 1], Ok(FALSE_H)),
    (&[1], Err(CollectFault::Missing(0))),
    (&[0, 0], Err(CollectFault::Double(0))),
    (&[], Err(CollectFault::Missing(0))),
];

#[test]
fn collect_by_hand(rt: HostRuntime) -> Result<(), Fail> {
    let recording = (jumps(3), GIVEN_H.as_slice());
    for (row, (segments, expected)) in COLLECTED.iter().enumerate() {
        let same = is_collected(rt.alloc(), recording, segments, *expected)?;
        assert!(rt; same, "row {row}");
    }
    Ok(())
}

/// A number of segments that all hold, the order of their verdicts, and the number of steps.
const ALL_HOLD: [(u32, &[u32], u64); 2] = [(3, &[2, 0, 1], 30), (0, &[], 0)];

#[test]
fn collect_if_all_hold(rt: HostRuntime) -> Result<(), Fail> {
    for (checkpoints, segments, steps) in ALL_HOLD {
        let recording = (jumps(checkpoints as usize), [].as_slice());
        let accepted = Verdict::Accepted { checkpoints, steps };
        let same = is_collected(rt.alloc(), recording, segments, Ok(accepted))?;
        assert!(rt; same, "of {checkpoints} segments");
    }
    Ok(())
}

/// The verdict if there is no segment.
const NOTHING: Verdict = Verdict::Accepted {
    checkpoints: 0,
    steps: 0,
};

#[test]
fn collect_nothing_of_a_recording_without_pages(rt: HostRuntime) -> Result<(), Fail> {
    let same = is_collected(rt.alloc(), (EMPTY, &[]), &[], Ok(NOTHING))?;
    assert!(rt; same, "another verdict");
    Ok(())
}

/// Reports whether a verdict has this line and this status.
fn is_shown(alloc: Global, verdict: &Verdict, line: &[u8], status: u8) -> Result<bool, AllocError> {
    let written = verdict.line(alloc)?;
    Ok(written.as_slice() == line && verdict.status() == status)
}

#[test]
fn line_of_a_verdict(rt: HostRuntime) -> Result<(), Fail> {
    let line = b"accepted 0 checkpoints 0 steps\n";
    let same = is_shown(rt.alloc(), &NOTHING, line, 0)?;
    assert!(rt; same, "another line or status");
    Ok(())
}
