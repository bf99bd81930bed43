//! Sessions of version 3, of a machine with a disk, and recordings that a disk answers.

use oberon_format::{Recording, write};
use oberon_session::{
    Claim, SessionFault, begin_recording, extend_recording, make_recording, read_session,
    read_session_with_disk,
};
use risc_core::COUNTER_END;
use risc_devices::{Devices, Input};
use risc_model::{Cpu, Event, Flags};
use std::alloc::Global;

/// A session: its version, the members of `start` after `flags`, and the kind and the value of its input.
#[derive(Clone, Copy)]
struct Text {
    version: u8,
    more: &'static str,
    kind: &'static str,
    value: u64,
}

/// The members with a disk, whose last answer is 12345678H.
const WITH_DISK: &str = ",\"rate\":0,\"phase\":0,\"disk\":305419896";

/// The members without.
const WITHOUT: &str = ",\"rate\":0,\"phase\":0";

/// A session with a disk.
const LAWFUL: Text = Text {
    version: 3,
    more: WITH_DISK,
    kind: "disk",
    value: 4_294_967_295,
};

/// A session without.
const PLAIN: Text = Text {
    version: 2,
    more: WITHOUT,
    kind: "timer",
    value: 7,
};

/// A name, a session, and its first fault for `read_session` and for `read_session_with_disk`.
const FAULTS: [(&str, Text, Option<SessionFault>, Option<SessionFault>); 9] = [
    ("with a disk", LAWFUL, Some(SessionFault::Shape), None),
    ("without", PLAIN, None, None),
    (
        "an answer of more than 32 bits",
        Text {
            value: 4_294_967_296,
            ..LAWFUL
        },
        Some(SessionFault::Shape),
        Some(SessionFault::Range),
    ),
    (
        "a last answer of more than 32 bits",
        Text {
            more: ",\"rate\":0,\"phase\":0,\"disk\":4294967296",
            ..LAWFUL
        },
        Some(SessionFault::Shape),
        Some(SessionFault::Range),
    ),
    (
        "no last answer",
        Text {
            more: WITHOUT,
            ..LAWFUL
        },
        Some(SessionFault::Shape),
        Some(SessionFault::Shape),
    ),
    (
        "a last answer in version 2",
        Text {
            more: WITH_DISK,
            ..PLAIN
        },
        Some(SessionFault::Shape),
        Some(SessionFault::Shape),
    ),
    (
        "an answer in version 2",
        Text {
            kind: "disk",
            ..PLAIN
        },
        Some(SessionFault::Shape),
        Some(SessionFault::Shape),
    ),
    (
        "another kind",
        Text {
            kind: "disc",
            ..LAWFUL
        },
        Some(SessionFault::Shape),
        Some(SessionFault::Shape),
    ),
    (
        "version 4",
        Text {
            version: 4,
            ..LAWFUL
        },
        Some(SessionFault::Shape),
        Some(SessionFault::Shape),
    ),
];

/// Returns a session in JSON: MOV R0, 5 at word 0, an input at count 1, and a checkpoint at 2. Returns `None` if memory runs out.
fn json_of(alloc: Global, text: &Text) -> Option<String> {
    let (version, more, kind, value) = (text.version, text.more, text.kind, text.value);
    format!(in alloc;
        "{{\"format\":\"oberon-session\",\"version\":{version},\"start\":{{\"R\":[0,0,0,0,0,0,0,0,0,0,0,0,0,0,0,0],\"H\":0,\"PC\":0,\"flags\":0{more}}},\"pages\":[{{\"at\":0,\"hex\":\"05000040\"}}],\"inputs\":[[1,\"{kind}\",{value}]],\"checkpoints\":[2]}}"
    ).ok()
}

/// Reports whether a session has these faults.
fn has_faults(
    alloc: Global,
    text: &Text,
    fault: Option<SessionFault>,
    with_disk: Option<SessionFault>,
) -> bool {
    match json_of(alloc, text) {
        Some(json) => {
            read_session(alloc, json.as_bytes()).err() == fault
                && read_session_with_disk(alloc, json.as_bytes()).err() == with_disk
        }
        None => false,
    }
}

/// Returns the name of the first row with another fault than expected, if there is one.
fn session_of_another_fault(alloc: Global) -> Option<&'static str> {
    for (name, text, fault, with_disk) in &FAULTS {
        if !has_faults(alloc, text, *fault, *with_disk) {
            return Some(*name);
        }
    }
    None
}

#[test]
fn refuses_sessions_by_their_version(rt: HostRuntime) {
    if let Some(name) = session_of_another_fault(rt.alloc()) {
        panic!(rt; "{name}");
    }
}

/// Returns the recording file of a session.
fn file_of(alloc: Global, text: &Text) -> Option<Vec<u8>> {
    let json = json_of(alloc, text)?;
    let session = read_session_with_disk(alloc, json.as_bytes()).ok()?;
    let recording = make_recording(alloc, &session).ok()?;
    write(alloc, &recording).ok()
}

/// Reports whether these bytes are in a file at an offset.
fn has_at(file: &[u8], at: usize, bytes: &[u8]) -> bool {
    file.iter().skip(at).take(bytes.len()).eq(bytes.iter())
}

#[test]
fn records_a_session_with_a_disk(rt: HostRuntime) {
    match file_of(rt.alloc(), &LAWFUL) {
        Some(file) => {
            assert!(rt; file.len() == 1_368, "length");
            assert!(rt; has_at(&file, 4, &[3, 0, 0, 0]), "version");
            assert!(rt;
                has_at(
                    &file,
                    1_048,
                    &[1, 0, 0, 0, 0, 0, 0, 0, 6, 0, 0, 0, 255, 255, 255, 255]
                ),
                "event"
            );
            assert!(rt;
                has_at(&file, 1_216, &[0x78, 0x56, 0x34, 0x12]),
                "checkpoint 0"
            );
            assert!(rt; has_at(&file, 1_364, &[255, 255, 255, 255]), "checkpoint 1");
        }
        None => panic!(rt; "no recording"),
    }
}

#[test]
fn records_a_session_without_a_disk_in_version_2(rt: HostRuntime) {
    match file_of(rt.alloc(), &PLAIN) {
        Some(file) => assert!(rt; has_at(&file, 4, &[2, 0, 0, 0]), "version"),
        None => panic!(rt; "no recording"),
    }
}

/// Returns a machine's processor and devices, whose disk answered this last.
fn machine(disk: u32) -> Option<(Cpu, Devices)> {
    let cpu = Cpu {
        r: [0; 16],
        h: 0,
        pc: 0,
        flags: Flags::from_number(0),
        stop: 0,
    };
    let devices = Devices::with_timer(0, 0, 0).ok()?;
    Some((cpu, devices.with_disk(disk)))
}

/// Returns the recording that begins with a disk that answered this last.
fn begun(alloc: Global, disk: u32, words: &[u32]) -> Option<Recording> {
    let (cpu, devices) = machine(disk)?;
    if cpu.pc >= COUNTER_END || cpu.stop > 4 || words.len() != 262_144 {
        return None;
    }
    begin_recording(alloc, cpu, devices, words).ok()
}

/// Returns the version of the file of a recording that begins with an answer, and is extended by an input of a kind and a checkpoint
/// with an answer.
fn version_of(alloc: Global, first: u32, kind: u8, last: u32) -> Option<u8> {
    let words = vec![in alloc; 0; 262_144].ok()?;
    let recording = begun(alloc, first, &words)?;
    let (cpu, devices) = machine(last)?;
    let input = Input::new_with_disk(kind, 7).ok()?;
    if cpu.pc >= COUNTER_END || cpu.stop > 4 || words.len() != 262_144 {
        return None;
    }
    let claim = Claim {
        count: 1,
        cpu,
        devices,
        words: &words,
        sent: &[],
    };
    let recording = extend_recording(alloc, recording, &[Event { count: 0, input }], &claim).ok()?;
    write(alloc, &recording).ok()?.get(4).copied()
}

#[test]
fn extends_in_version_2_until_a_disk_answers(rt: HostRuntime) {
    let alloc = rt.alloc();
    assert!(rt; version_of(alloc, 255, 4, 255) == Some(2), "no answer");
    assert!(rt; version_of(alloc, 0, 4, 255) == Some(3), "at the beginning");
    assert!(rt; version_of(alloc, 255, 6, 255) == Some(3), "as an input");
    assert!(rt; version_of(alloc, 255, 4, 0) == Some(3), "in a claim");
}
