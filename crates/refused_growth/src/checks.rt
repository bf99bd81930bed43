//! A recording that is checked and a session that is recorded, by the calls of the libraries, however much memory there is.

use crate::files::stepping_file;
use oberon_check::{CheckFault, FreeGate, Verdict, check_recording};
use oberon_format::{Recording, read};
use oberon_session::{RecordFault, Session, make_recording, read_session};
use std::io;
use std::sync::Wait;
use std::thread::Threads;

/// The session of the stored recording: one page, and a checkpoint after 100 instructions.
const SESSION: &str = concat!(
    "{\"format\":\"oberon-session\",\"version\":1,",
    "\"start\":{\"R\":[0,0,0,0,0,0,0,0,0,0,0,0,0,0,0,0],\"H\":0,\"PC\":0,\"flags\":0},",
    "\"pages\":[{\"at\":0,\"hex\":\"05000040\"}],\"inputs\":[],\"checkpoints\":[100]}"
);

/// Checks a recording and records a session, and prints the result of each.
pub(crate) fn checks<H: AllocGlobal + Print + Threads + Wait + Sync>(rt: &H) -> io::Result<()> {
    match read(rt.alloc(), &stepping_file()) {
        Ok(recording) => show_check(rt, &recording)?,
        Err(fault) => println!(rt; "check: {fault} to read it")?,
    }
    match read_session(rt.alloc(), SESSION.as_bytes()) {
        Ok(session) => show_record(rt, &session),
        Err(fault) => println!(rt; "record: {fault} to read it"),
    }
}

/// Prints the verdict of two workers on a recording, or why there is none.
fn show_check<H: AllocGlobal + Print + Threads + Wait + Sync>(
    rt: &H,
    recording: &Recording,
) -> io::Result<()> {
    match check_recording(rt, rt.alloc(), recording, 2, 1, &FreeGate) {
        Ok(Verdict::Accepted { checkpoints, steps }) => {
            println!(rt; "check: accepted {checkpoints} checkpoints {steps} steps")
        }
        Ok(Verdict::FalseAt { checkpoint, .. }) => println!(rt; "check: {checkpoint} is false"),
        Err(CheckFault::Memory) => println!(rt; "check: no memory"),
    }
}

/// Prints the number of checkpoints of the recording of a session, or why there is none.
fn show_record<H: AllocGlobal + Print>(rt: &H, session: &Session) -> io::Result<()> {
    match make_recording(rt.alloc(), session) {
        Ok(recording) => println!(rt; "record: {} checkpoints", recording.count()),
        Err(RecordFault::Memory) => println!(rt; "record: no memory"),
        Err(fault) => println!(rt; "record: {fault}"),
    }
}
