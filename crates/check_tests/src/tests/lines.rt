//! The messages of faults, and the lines of files that are cut off.

use super::checked::{Crew, checked};
use oberon_check::{CheckFault, CollectFault, FreeGate};
use recording_texts::STORED_RUN;
use std::alloc::{AllocError, Global};
use std::fmt::Display;
use std::sync::Wait;
use std::test::Fail;
use std::thread::Threads;

const TWO: Crew = Crew {
    workers: 2,
    cut: 64,
};

/// Reports whether a value is printed as `text`.
fn is_printed<D: Display>(alloc: Global, value: &D, text: &str) -> Result<bool, AllocError> {
    let printed = format!(in alloc; "{value}")?;
    Ok(printed.as_str() == text)
}

/// Faults, each with its message.
const MESSAGES: [(CollectFault, &str); 2] = [
    (CollectFault::Double(3), "segment 3 has two verdicts"),
    (CollectFault::Missing(4095), "segment 4095 has no verdict"),
];

#[test]
fn messages_of_faults(rt: HostRuntime) -> Result<(), Fail> {
    for (fault, text) in MESSAGES {
        assert!(rt; is_printed(rt.alloc(), &fault, text)?, "{text}");
    }
    Ok(())
}

#[test]
fn numbers_of_faults(rt: HostRuntime) {
    assert!(rt; CollectFault::Double(3).number() == 1);
    assert!(rt; CollectFault::Missing(3).number() == 2);
}

#[test]
fn message_of_a_failed_allocation(rt: HostRuntime) -> Result<(), Fail> {
    let same = is_printed(rt.alloc(), &CheckFault::Memory, "there is no memory")?;
    assert!(rt; same, "another message");
    Ok(())
}

/// Reports whether a file that is cut off is refused as short, at its end.
fn is_short<R: Threads + Wait + Sync>(rt: &R, alloc: Global, bytes: &[u8]) -> Result<bool, Fail> {
    let length = bytes.len();
    let line = format!(in alloc; "refused 1 short at byte {length}\n")?;
    let report = checked(rt, alloc, bytes, TWO, &FreeGate)?;
    Ok(report.line.as_slice() == line.as_bytes() && report.status == 2)
}

#[test]
fn a_file_cut_anywhere_is_short(rt: HostRuntime) -> Result<(), Fail> {
    let bytes = STORED_RUN.first_file(rt.alloc())?;
    for length in 0..bytes.len() {
        let short = is_short(&rt, rt.alloc(), &bytes[..length])?;
        assert!(rt; short, "another line or status of {length} bytes");
    }
    Ok(())
}
