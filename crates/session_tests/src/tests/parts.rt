//! Sessions that are made of their parts: each refusal, and the session of the stored run.

use oberon_format::{words_fit, write};
use oberon_session::{PlacedPage, Session, SessionFault, make_recording, read_session};
use risc_devices::Input;
use risc_model::{Cpu, Event, Flags, Inputs};
use risc_pages::Page;
use std::alloc::Global;

/// The numbers in the parts of a session. All else in them is 0.
#[derive(Clone, Copy)]
struct Numbers {
    pc: u32,
    stop: u8,
    rate: u32,
    phase: u32,
    slots: [u16; 2],
    counts: [u64; 2],
}

/// Numbers of a lawful session.
const LAWFUL: Numbers = Numbers {
    pc: 4_194_303,
    stop: 0,
    rate: 10,
    phase: 9,
    slots: [0, 1_023],
    counts: [1, 1_099_511_627_776],
};

/// A name, numbers, and the first fault of parts with these numbers, if there is one.
const FAULTS: [(&str, Numbers, Option<SessionFault>); 9] = [
    ("lawful", LAWFUL, None),
    (
        "program counter",
        Numbers {
            pc: 4_194_304,
            ..LAWFUL
        },
        Some(SessionFault::Range),
    ),
    (
        "stop",
        Numbers { stop: 1, ..LAWFUL },
        Some(SessionFault::Range),
    ),
    (
        "phase",
        Numbers {
            phase: 10,
            ..LAWFUL
        },
        Some(SessionFault::Range),
    ),
    (
        "slot",
        Numbers {
            slots: [0, 1_024],
            ..LAWFUL
        },
        Some(SessionFault::Range),
    ),
    (
        "count",
        Numbers {
            counts: [0, 1],
            ..LAWFUL
        },
        Some(SessionFault::Range),
    ),
    (
        "slots that don't rise",
        Numbers {
            slots: [3, 3],
            ..LAWFUL
        },
        Some(SessionFault::Order),
    ),
    (
        "counts that don't rise",
        Numbers {
            counts: [2, 2],
            ..LAWFUL
        },
        Some(SessionFault::Order),
    ),
    (
        "order and range",
        Numbers {
            stop: 1,
            counts: [2, 2],
            ..LAWFUL
        },
        Some(SessionFault::Range),
    ),
];

/// Returns a processor with this PC and this stop, and all else 0.
fn cpu_at(pc: u32, stop: u8) -> Cpu {
    Cpu {
        r: [0; 16],
        h: 0,
        pc,
        flags: Flags::from_number(0),
        stop,
    }
}

/// Returns a page with this first word, in a page slot.
fn page_at(at: u16, word: u32) -> PlacedPage {
    let mut words = [0; 256];
    words[0] = word;
    words_fit(&words);
    PlacedPage {
        at,
        page: Page { words },
    }
}

/// Returns the session of parts without inputs, or its fault. Returns `None` if memory runs out.
fn session_of(
    alloc: Global,
    numbers: &Numbers,
    pages: &[PlacedPage],
    counts: &[u64],
) -> Option<Result<Session, SessionFault>> {
    let inputs = Inputs::new(Vec::new(alloc)).ok()?;
    let pages = Vec::from_slice(alloc, pages).ok()?;
    let counts = Vec::from_slice(alloc, counts).ok()?;
    Some(Session::from_parts(
        cpu_at(numbers.pc, numbers.stop),
        numbers.rate,
        numbers.phase,
        pages,
        inputs,
        counts,
    ))
}

/// Reports whether parts with these numbers have this fault, or none.
fn has_fault(alloc: Global, numbers: &Numbers, fault: Option<SessionFault>) -> bool {
    let pages = [page_at(numbers.slots[0], 1), page_at(numbers.slots[1], 2)];
    match session_of(alloc, numbers, &pages, &numbers.counts) {
        Some(session) => session.err() == fault,
        None => false,
    }
}

/// Returns the name of the first row with another fault than expected, if there is one.
fn parts_of_another_fault(alloc: Global) -> Option<&'static str> {
    for (name, numbers, fault) in &FAULTS {
        if !has_fault(alloc, numbers, *fault) {
            return Some(*name);
        }
    }
    None
}

#[test]
fn refuses_parts_by_the_rules_of_a_session(rt: HostRuntime) {
    if let Some(name) = parts_of_another_fault(rt.alloc()) {
        panic!(rt; "{name}");
    }
}

/// Returns the fault of a session whose only input is an answer of a disk.
fn fault_of_an_answer(alloc: Global) -> Option<SessionFault> {
    let input = Input::new_with_disk(6, 0).ok()?;
    let events = Vec::from_slice(alloc, &[Event { count: 0, input }]).ok()?;
    let inputs = Inputs::new(events).ok()?;
    let cpu = cpu_at(0, 0);
    Session::from_parts(cpu, 0, 0, Vec::new(alloc), inputs, Vec::new(alloc)).err()
}

#[test]
fn refuses_answers_of_a_disk(rt: HostRuntime) {
    let range = Some(SessionFault::Range);
    assert!(rt; fault_of_an_answer(rt.alloc()) == range, "as an input");
}

/// Returns the recording file of a session made of parts: MOV R0, 5 at word 0, and a checkpoint at 100.
fn file_of_parts(alloc: Global) -> Option<Vec<u8>> {
    let zeros = Numbers {
        pc: 0,
        rate: 0,
        phase: 0,
        ..LAWFUL
    };
    let session = session_of(alloc, &zeros, &[page_at(0, 0x4000_0005)], &[100])?.ok()?;
    let recording = make_recording(alloc, &session).ok()?;
    write(alloc, &recording).ok()
}

/// The same session in JSON.
const JSON: &str = concat!(
    "{\"format\":\"oberon-session\",\"version\":1,",
    "\"start\":{\"R\":[0,0,0,0,0,0,0,0,0,0,0,0,0,0,0,0],\"H\":0,\"PC\":0,\"flags\":0},",
    "\"pages\":[{\"at\":0,\"hex\":\"05000040\"}],\"inputs\":[],\"checkpoints\":[100]}"
);

/// Returns its recording file.
fn file_of_json(alloc: Global) -> Option<Vec<u8>> {
    let session = read_session(alloc, JSON.as_bytes()).ok()?;
    let recording = make_recording(alloc, &session).ok()?;
    write(alloc, &recording).ok()
}

#[test]
fn records_parts_as_their_text(rt: HostRuntime) {
    let alloc = rt.alloc();
    match (file_of_parts(alloc), file_of_json(alloc)) {
        (Some(parts), Some(json)) => {
            assert!(rt; parts.as_slice() == json.as_slice(), "the same recording");
        }
        _ => panic!(rt; "no memory"),
    }
}
