//! The number, the name and the message of each fault.

use oberon_session::{RecordFault, SessionFault};
use std::alloc::Global;
use std::fmt::Display;
use std::process::Abort;

const SESSION_FAULTS: [(SessionFault, Option<u8>, &str, &str); 6] = [
    (
        SessionFault::Json,
        Some(1),
        "json",
        "the bytes are not JSON",
    ),
    (
        SessionFault::Shape,
        Some(2),
        "shape",
        "the JSON does not have the shape of a session",
    ),
    (
        SessionFault::Range,
        Some(3),
        "range",
        "a number of the session is out of its range",
    ),
    (
        SessionFault::Order,
        Some(4),
        "order",
        "the session is out of order",
    ),
    (
        SessionFault::Hex,
        Some(5),
        "hex",
        "a page of the session is not written in hexadecimal digits",
    ),
    (SessionFault::Memory, None, "memory", "no memory"),
];

const RECORD_FAULTS: [(RecordFault, Option<u8>, &str, &str); 3] = [
    (
        RecordFault::Output,
        Some(1),
        "output",
        "the session sends too much",
    ),
    (
        RecordFault::Pages,
        Some(2),
        "pages",
        "the session changes too many pages",
    ),
    (RecordFault::Memory, None, "memory", "no memory"),
];

/// Reports whether a fault has this message.
fn is_shown<D: Display>(alloc: Global, fault: &D, message: &str) -> bool {
    match format!(in alloc; "{fault}") {
        Ok(shown) => shown.as_str() == message,
        Err(_) => false,
    }
}

/// Returns the name of the first fault of a session that has another number, name or message, if there is one.
fn wrong_session_fault(alloc: Global) -> Option<&'static str> {
    for (fault, number, name, message) in &SESSION_FAULTS {
        if fault.number() != *number || fault.name() != *name || !is_shown(alloc, fault, message) {
            return Some(name);
        }
    }
    None
}

/// Returns the name of the first fault of a recording that has another number, name or message, if there is one.
fn wrong_record_fault(alloc: Global) -> Option<&'static str> {
    for (fault, number, name, message) in &RECORD_FAULTS {
        if fault.number() != *number || fault.name() != *name || !is_shown(alloc, fault, message) {
            return Some(name);
        }
    }
    None
}

/// Checks that no fault is wrong.
fn check_names(rt: &impl Abort, wrong: Option<&'static str>) {
    if let Some(name) = wrong {
        panic!(rt; "{name}");
    }
}

#[test]
fn faults_of_sessions(rt: HostRuntime) {
    check_names(&rt, wrong_session_fault(rt.alloc()));
}

#[test]
fn faults_of_recordings(rt: HostRuntime) {
    check_names(&rt, wrong_record_fault(rt.alloc()));
}
