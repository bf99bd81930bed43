//! The calls of the past of a session.

use oberon_past::{Called, Past, Steps};
use oberon_session::{make_recording, read_session};
use risc_machine::CallLog;
use risc_model::Turn;
use std::alloc::Global;

/// A run of 30 instructions, three that repeat: a call of word 2; a branch back; in word 2, the return.
const SESSION: &str =
    "{\"format\":\"oberon-session\",\"version\":2,\"start\":{\"R\":[0,0,0,0,0,0,0,0,0,0,0,0,0,0,0,0],\"H\":0,\"PC\":0,\"flags\":0,\"rate\":0,\"phase\":0},\"pages\":[{\"at\":0,\"hex\":\"010000f7feffffe70f0000c7\"}],\"inputs\":[],\"checkpoints\":[30]}";

/// Returns the past of the session.
fn past(alloc: Global) -> Option<Past> {
    let session = read_session(alloc, SESSION.as_bytes()).ok()?;
    let recording = make_recording(alloc, &session).ok()?;
    Past::open(alloc, recording, Steps::new(8)?).ok()
}

/// Reports whether a turn is the one that is expected: a call at the counts 0, 3 and so on, whose return is the next instruction.
fn is_expected(turn: &Turn) -> bool {
    match turn.call {
        Some(call) => {
            turn.count % 3 == 0 && turn.stay == 0 && (call.at, call.to, call.back) == (0, 2, 1)
        }
        None => turn.count % 3 == 1 && turn.stay == 0,
    }
}

/// Follows the calls of the counts from 0 up to `to`, with room for so many turns. Returns the counts of the turns, how many calls are open
/// then, and the count up to which they are followed.
fn followed(
    alloc: Global,
    past: &mut Past,
    to: u64,
    room: usize,
) -> Option<(Vec<u64>, usize, u64)> {
    if room == 0 {
        return None;
    }
    let log = CallLog::new(alloc, &[], 0, 4, room).ok()?;
    let called = past.calls(alloc, 0, to, log, Steps::new(1_000)?).ok()?;
    let Called::Done(calls) = called else {
        return None;
    };
    let mut counts = Vec::new(alloc);
    for turn in &calls.log.turns {
        if !is_expected(turn) {
            return None;
        }
        counts.push(turn.count).ok()?;
    }
    Some((counts, calls.log.calls.len(), calls.next))
}

#[test]
fn follows_calls(rt: HostRuntime) {
    let alloc = rt.alloc();
    match past(alloc) {
        Some(mut past) => {
            match followed(alloc, &mut past, 7, 100) {
                Some((counts, open, next)) => {
                    assert!(rt;
                        counts.as_slice() == [0, 1, 3, 4, 6].as_slice() && open == 1 && next == 7,
                        "range"
                    )
                }
                None => panic!(rt; "no calls"),
            }
            match followed(alloc, &mut past, 30, 4) {
                Some((counts, open, next)) => {
                    assert!(rt;
                        counts.as_slice() == [0, 1, 3, 4].as_slice() && open == 0 && next == 5,
                        "room"
                    )
                }
                None => panic!(rt; "no turns"),
            }
        }
        None => panic!(rt; "no past"),
    }
}
