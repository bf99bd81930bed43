//! The check of a recording by its past gives the verdict of a replay.

use oberon_check::{Part, Verdict};
use oberon_format::Recording;
use oberon_past::{CheckFault, CheckProgress, Checked, Past, Steps};
use oberon_session::{make_recording, read_session};
use std::alloc::Global;

/// A run of 30 instructions that sends a byte at the counts 2, 5, 8 and so on, and takes inputs at 5, 10 and 21.
const SESSION: &str =
    "{\"format\":\"oberon-session\",\"version\":2,\"start\":{\"R\":[0,0,0,0,0,0,0,0,0,0,0,0,0,0,0,0],\"H\":0,\"PC\":0,\"flags\":0,\"rate\":0,\"phase\":0},\"pages\":[{\"at\":0,\"hex\":\"c8ff005141000040000010a001000840fdffffe7\"}],\"inputs\":[[5,\"mouse\",7],[10,\"key\",28],[21,\"switches\",3]],\"checkpoints\":[1,10,21,30]}";

/// The same run with another input at 21.
const OTHER: &str =
    "{\"format\":\"oberon-session\",\"version\":2,\"start\":{\"R\":[0,0,0,0,0,0,0,0,0,0,0,0,0,0,0,0],\"H\":0,\"PC\":0,\"flags\":0,\"rate\":0,\"phase\":0},\"pages\":[{\"at\":0,\"hex\":\"c8ff005141000040000010a001000840fdffffe7\"}],\"inputs\":[[5,\"mouse\",7],[10,\"key\",28],[21,\"switches\",4]],\"checkpoints\":[1,10,21,30]}";

/// Returns the recording of a session.
fn recorded(alloc: Global, session: &str) -> Option<Recording> {
    let session = read_session(alloc, session.as_bytes()).ok()?;
    make_recording(alloc, &session).ok()
}

/// Returns the recording with another H in checkpoint 3.
fn with_other_h(alloc: Global) -> Option<Recording> {
    let (pool, inputs, mut checkpoints) = recorded(alloc, SESSION)?.into_parts();
    checkpoints.get_mut(3)?.cpu.h = 5;
    Recording::from_parts(pool, inputs, checkpoints).ok()
}

/// Returns the recording with another byte sent before checkpoint 4.
fn with_other_byte(alloc: Global, index: usize) -> Option<Recording> {
    let (pool, inputs, mut checkpoints) = recorded(alloc, SESSION)?.into_parts();
    let sent = &mut checkpoints.get_mut(4)?.sent;
    if index < sent.len() {
        sent[index] = 7;
    } else {
        sent.push(7).ok()?;
    }
    Recording::from_parts(pool, inputs, checkpoints).ok()
}

/// Returns the past of the session, with keyframes 8 instructions apart.
fn past(alloc: Global) -> Option<Past> {
    Past::open(alloc, recorded(alloc, SESSION)?, Steps::new(8)?).ok()
}

/// Returns the verdict on a recording by the past of the session, with a budget of so many instructions a call.
fn verdict(alloc: Global, recording: &Recording, budget: u64) -> Option<Verdict> {
    let mut past = past(alloc)?;
    let mut progress = None;
    for _ in 0..100 {
        match past
            .check(alloc, recording, progress, Steps::new(budget)?)
            .ok()?
        {
            Checked::Done(verdict) => return Some(verdict),
            Checked::More(next) => progress = Some(next),
            Checked::Refused(_) => return None,
        }
    }
    None
}

/// Reports whether the verdict on a recording is this one, with each budget from 1 to 31.
fn has_verdict(alloc: Global, recording: Option<Recording>, expected: Verdict) -> bool {
    let Some(recording) = recording else {
        return false;
    };
    for budget in 1..32u64 {
        if verdict(alloc, &recording, budget) != Some(expected) {
            return false;
        }
    }
    true
}

#[test]
fn accepts_a_true_recording(rt: HostRuntime) {
    let alloc = rt.alloc();
    let accepted = Verdict::Accepted {
        checkpoints: 4,
        steps: 30,
    };
    assert!(rt; has_verdict(alloc, recorded(alloc, SESSION), accepted));
}

#[test]
fn finds_the_first_false_checkpoint(rt: HostRuntime) {
    let alloc = rt.alloc();
    let other_h = Verdict::FalseAt {
        checkpoint: 3,
        count: 21,
        part: Part::H,
    };
    let other_byte = Verdict::FalseAt {
        checkpoint: 4,
        count: 30,
        part: Part::Sent,
    };
    assert!(rt; has_verdict(alloc, with_other_h(alloc), other_h));
    for index in 0..5usize {
        assert!(rt;
            has_verdict(alloc, with_other_byte(alloc, index), other_byte),
            "byte {index}"
        );
    }
}

/// Returns why a check of the recording of a session is refused, by the past of the other one up to a count.
fn refusal(
    alloc: Global,
    session: &str,
    end: u64,
    progress: Option<CheckProgress>,
) -> Option<CheckFault> {
    let mut past = past(alloc)?;
    past.cut(end).ok()?;
    match past
        .check(alloc, &recorded(alloc, session)?, progress, Steps::new(5)?)
        .ok()?
    {
        Checked::Refused(fault) => Some(fault),
        _ => None,
    }
}

/// Returns a progress of checkpoint 3 at a count, with so many bytes sent.
fn progress(count: u64, sent: usize) -> Option<CheckProgress> {
    Some(CheckProgress {
        checkpoint: 3,
        count,
        sent: Some(sent),
    })
}

#[test]
fn refuses_a_recording_of_another_past(rt: HostRuntime) {
    let alloc = rt.alloc();
    assert!(rt; refusal(alloc, SESSION, 30, None) == None);
    assert!(rt; refusal(alloc, SESSION, 29, None) == Some(CheckFault::Later));
    assert!(rt; refusal(alloc, OTHER, 30, None) == Some(CheckFault::OtherRun));
    assert!(rt; refusal(alloc, SESSION, 30, progress(21, 0)) == None);
    assert!(rt; refusal(alloc, SESSION, 30, progress(22, 0)) == Some(CheckFault::Progress));
    assert!(rt; refusal(alloc, SESSION, 30, progress(9, 0)) == Some(CheckFault::Progress));
    assert!(rt; refusal(alloc, SESSION, 30, progress(15, 9)) == Some(CheckFault::Progress));
}
