//! Worked examples: each rule broken once, and each call made once.

mod files;
mod first;
mod migrated;
mod parts;
mod second;
mod third;

use oberon_format::Fault;
use std::alloc::Global;

/// The message of each fault.
const MESSAGES: [(Fault, &str); 9] = [
    (Fault::Short(1), "the recording ends too early, at byte 1"),
    (
        Fault::Magic(0),
        "the bytes do not begin with ORSR, at byte 0",
    ),
    (Fault::Version(4), "the version is not known, at byte 4"),
    (
        Fault::Limit(16),
        "a number of the header is out of its range, at byte 16",
    ),
    (
        Fault::Event(1048),
        "an event is out of its ranges, at byte 1048",
    ),
    (
        Fault::Checkpoint(24),
        "a checkpoint is out of its ranges, at byte 24",
    ),
    (
        Fault::Page(156),
        "a page id is out of its range, at byte 156",
    ),
    (
        Fault::Trailing(4252),
        "there are bytes after the end of the recording, at byte 4252",
    ),
    (Fault::Memory, "no memory"),
];

/// Reports whether a fault has this message.
fn is_shown(alloc: Global, fault: Fault, message: &str) -> bool {
    match format!(in alloc; "{fault}") {
        Ok(shown) => shown.as_str() == message,
        Err(_) => false,
    }
}

/// Returns the message of the first fault that shows another one, if there is one.
fn message_not_shown(alloc: Global) -> Option<&'static str> {
    for (fault, message) in &MESSAGES {
        if !is_shown(alloc, *fault, message) {
            return Some(message);
        }
    }
    None
}

#[test]
fn shows_each_fault(rt: HostRuntime) {
    if let Some(message) = message_not_shown(rt.alloc()) {
        panic!(rt; "not shown: {message}");
    }
}
