//! The replay of one segment, and its segment verdict.
//!
//! A segment verdict is true by its type: only a replay makes one. The verdict from many of them is in `collector`.
ghost use Rattle.std.specs.Prelude.{◌≡◌, ◌+◌, ◌<◌, IfOk, IfNone};
ghost use Rattle.oberon_format.specs.Defined.{claimed};
ghost use Rattle.oberon_format.specs.Recording.{last_of};
ghost use Rattle.oberon_check.specs.Segment.{IsTrueSegmentVerdict};

use crate::difference::first_difference;
use crate::part::Part;
use oberon_format::Recording;
use risc_machine::Machine;
use std::alloc::{AllocError, Global};
use std::marker::Model;
use std::snapshot::Snapshot;

/// A segment verdict: the result of the replay of one segment. Segment i leads from checkpoint i to checkpoint i + 1.
///
/// By its type it is true of its recording, which only contracts see: the part is the first one in which what checkpoint
/// i + 1 claims differs from a replay that starts at what checkpoint i claims. In contracts it is a `SegmentVerdictRecord`.
#[derive(Drop)]
pub struct SegmentVerdict {
    recording: Snapshot<Recording>,
    segment: u32,
    part: Option<Part>,
}

impl Model for SegmentVerdict {
    ghost use Rattle.oberon_check.specs.Segment.{SegmentVerdictRecord, IsTrueSegmentVerdict};

    ghost Value = { SegmentVerdictRecord };

    ghost view = { λ v. record { recording = v.recording.value; segment = v.segment; part = v.part } };

    ghost invariant = { λ v. IsTrueSegmentVerdict (record { recording = v.recording.value; segment = v.segment; part = v.part }) };
}

impl SegmentVerdict {
    ghost use Rattle.oberon_check.specs.Segment.{IsTrueSegmentVerdict};

    /// Returns the segment's number, counted from 0.
    pub fn segment(&self) -> u32
        ensures segment { result ≡ self.now.segment }
        ensures truth { IsTrueSegmentVerdict self.now }
    {
        self.segment
    }

    /// Returns the first part that differs, or `None` if the segment held.
    pub fn part(&self) -> Option<Part>
        ensures part { result ≡ self.now.part }
        ensures truth { IsTrueSegmentVerdict self.now }
    {
        self.part
    }
}

/// Makes a machine in the state that checkpoint `i` claims. It fails only if memory runs out.
pub(crate) fn machine_at<'r>(
    alloc: Global,
    r: &'r Recording,
    i: u32,
) -> Result<Machine<'r>, AllocError>
    requires { i < last_of r.now }
    ensures { IfOk result (λ m. m.state ≡ (claimed r.now i).state) }
{
    let claim = r.checkpoint(i);
    let devices = claim.devices.copy();
    Machine::start(alloc, r.pool(), &claim.table, claim.cpu, devices)
}

/// Replays segment `i`, and returns the first part in which the result differs from what the next checkpoint claims. If there is
/// none, the machine is then in the state that the next checkpoint claims.
fn replayed_part(
    machine: &mut Machine<'_>,
    r: &Recording,
    i: u32,
) -> Result<Option<Part>, AllocError>
    requires segment { i < last_of r.now }
    requires state { machine.old.state ≡ (claimed r.now i).state }
    ensures part { IfOk result (λ part. IsTrueSegmentVerdict (record { recording = r.now; segment = i; part = part })) }
    ensures state { IfOk result (λ part. IfNone part (machine.new.state ≡ (claimed r.now (i + 1)).state)) }
{
    let from = r.checkpoint(i);
    let to = r.checkpoint(i + 1);
    let Ok(same) = machine.run_matching(r.inputs(), from.count, to.count, &to.sent) else {
        return Err(AllocError);
    };
    let part = first_difference(machine, same, r.pool(), to);
    Ok(part)
}

/// Replays segment `i` on a machine in the state that checkpoint `i` claims, and compares the result with what the next
/// checkpoint claims. If the segment held, the machine can go on with the next segment. It fails only if memory runs out.
pub(crate) fn replay_on(
    machine: &mut Machine<'_>,
    r: &Recording,
    i: u32,
) -> Result<SegmentVerdict, AllocError>
    requires segment { i < last_of r.now }
    requires state { machine.old.state ≡ (claimed r.now i).state }
    ensures recording { IfOk result (λ v. v.recording ≡ r.now) }
    ensures segment { IfOk result (λ v. v.segment ≡ i) }
    ensures state { IfOk result (λ v. IfNone v.part (machine.new.state ≡ (claimed r.now (i + 1)).state)) }
{
    let part = replayed_part(machine, r, i)?;
    Ok(SegmentVerdict {
        recording: Snapshot::of(r),
        segment: i,
        part,
    })
}

/// Replays segment `i` from what checkpoint `i` claims, and compares the result with what the next checkpoint claims. It
/// fails only if memory runs out.
pub fn replay_segment(alloc: Global, r: &Recording, i: u32) -> Result<SegmentVerdict, AllocError>
    requires { i < last_of r.now }
    ensures recording { IfOk result (λ v. v.recording ≡ r.now) }
    ensures segment { IfOk result (λ v. v.segment ≡ i) }
{
    let mut machine = machine_at(alloc, r, i)?;
    replay_on(&mut machine, r, i)
}
