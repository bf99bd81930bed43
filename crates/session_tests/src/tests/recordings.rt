//! The recording of the past of a session is that of the session.

use oberon_format::{Recording, write};
use oberon_past::{Draft, DraftFault, Drafted, Past, Steps};
use oberon_session::{make_recording, read_session};
use std::alloc::Global;

/// A run of 30 instructions that sends a byte at the counts 2, 5, 8 and so on, and takes inputs at 5, 10 and 21.
const SESSION: &str =
    "{\"format\":\"oberon-session\",\"version\":2,\"start\":{\"R\":[0,0,0,0,0,0,0,0,0,0,0,0,0,0,0,0],\"H\":0,\"PC\":0,\"flags\":0,\"rate\":0,\"phase\":0},\"pages\":[{\"at\":0,\"hex\":\"c8ff005141000040000010a001000840fdffffe7\"}],\"inputs\":[[5,\"mouse\",7],[10,\"key\",28],[21,\"switches\",3]],\"checkpoints\":[1,10,21,30]}";

/// Returns the recording of the session.
fn recorded(alloc: Global) -> Option<Recording> {
    let session = read_session(alloc, SESSION.as_bytes()).ok()?;
    make_recording(alloc, &session).ok()
}

/// Returns the past of the session.
fn past(alloc: Global) -> Option<Past> {
    Past::open(alloc, recorded(alloc)?, Steps::new(8)?).ok()
}

/// Adds a checkpoint to a draft, with a budget of five instructions a call.
fn added(
    alloc: Global,
    past: &mut Past,
    draft: Draft,
    count: u64,
) -> Result<Option<Draft>, DraftFault> {
    let Some(budget) = Steps::new(5) else {
        return Ok(None);
    };
    let mut draft = draft;
    for _ in 0..20 {
        match past.record(alloc, draft, count, budget)? {
            Drafted::Done(next) => return Ok(Some(next)),
            Drafted::More(next) => draft = next,
        }
    }
    Ok(None)
}

/// Returns the file of the recording of a past with checkpoints at these counts.
fn file_of(alloc: Global, past: &mut Past, counts: &[u64]) -> Option<Vec<u8>> {
    let mut draft = past.draft(alloc).ok()?;
    for count in counts {
        draft = added(alloc, past, draft, *count).ok()??;
    }
    write(alloc, &draft.recording).ok()
}

#[test]
fn records_the_past_of_a_session(rt: HostRuntime) {
    let alloc = rt.alloc();
    let wanted = match recorded(alloc) {
        Some(recording) => write(alloc, &recording).ok(),
        None => None,
    };
    match past(alloc) {
        Some(mut past) => {
            let file = file_of(alloc, &mut past, &[1, 10, 21, 30]);
            assert!(rt; file.is_some() && file == wanted);
        }
        None => panic!(rt; "the session has no past"),
    }
}

/// Returns why a past with a draft up to the count 10 gets no checkpoint at another count.
fn refused(alloc: Global, count: u64) -> Option<DraftFault> {
    let mut past = past(alloc)?;
    let draft = past.draft(alloc).ok()?;
    let draft = added(alloc, &mut past, draft, 10).ok()??;
    added(alloc, &mut past, draft, count).err()
}

#[test]
fn refuses_a_checkpoint_that_does_not_come_next(rt: HostRuntime) {
    let alloc = rt.alloc();
    assert!(rt; refused(alloc, 10) == Some(DraftFault::Order));
    assert!(rt; refused(alloc, 31) == Some(DraftFault::Later));
    assert!(rt; refused(alloc, 30) == None);
}
