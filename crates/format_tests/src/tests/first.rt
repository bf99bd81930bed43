//! Files of version 1: each rule broken once, and the files that are written of them.

use crate::tests::files::{
    Turned, check_parts, check_rows, cut_file, is_fault_of, is_line, is_refused,
    is_refused_with_a_byte_more, put_byte, put_word, row_of_another_fault,
};
use oberon_format::{Checkpoint, Fault, Recording, read, write};
use recording_texts::{
    Claim, EMPTY, EQUAL_PAGES, Event, FIRST_PAGE, JUMP, ONE_BYTE_SENT, STORED_RUN, Sketch, ZEROS,
    header,
};
use risc_devices::Devices;
use risc_model::Inputs;
use risc_pages::Pool;
use std::alloc::{AllocError, Global};

/// Sets the timer to 0 before the first step.
const TIMER_SET: Event = Event {
    count: 0,
    kind: 1,
    value: 0,
};

/// One page of zeros, two events from byte 1048 on, and checkpoint 0.
const TWO_EVENTS: Sketch<'static> = Sketch {
    pages: &[&[]],
    events: &[TIMER_SET, TIMER_SET],
    claims: &[ZEROS],
};

/// Two events, and a checkpoint with numbers in its flags, its stop and all its devices.
const FULL: Sketch<'static> = Sketch {
    pages: &[&[]],
    events: &[
        Event {
            count: 3,
            kind: 1,
            value: 7,
        },
        Event {
            count: 3,
            kind: 3,
            value: 0x073F_F3FF,
        },
    ],
    claims: &[Claim {
        registers: &[(0, 0x1234_5678)],
        flags: 15,
        stop: 4,
        timer: 9,
        switches: 4095,
        leds: 255,
        mouse: 0x0100_0001,
        serial: 0x1FF,
        keys: b"AB",
        ..FIRST_PAGE
    }],
};

/// Recordings that have a file of version 1.
const SKETCHES: [Sketch<'static>; 5] = [STORED_RUN, EMPTY, EQUAL_PAGES, ONE_BYTE_SENT, FULL];

/// Returns the recording of a sketch, from its file of version 1.
fn first_recording(alloc: Global, sketch: &Sketch<'_>) -> Option<Recording> {
    let bytes = sketch.first_file(alloc).ok()?;
    read(alloc, &bytes).ok()
}

/// Returns the file that is written of this recording.
fn written_file(alloc: Global, sketch: &Sketch<'_>) -> Option<Vec<u8>> {
    let recording = first_recording(alloc, sketch)?;
    write(alloc, &recording).ok()
}

/// Returns the recording of the file that is written of this one.
fn second_recording(alloc: Global, sketch: &Sketch<'_>) -> Option<Recording> {
    let bytes = written_file(alloc, sketch)?;
    read(alloc, &bytes).ok()
}

/// Returns the length of the file of version 1.
fn first_length(alloc: Global, sketch: &Sketch<'_>) -> Option<usize> {
    match sketch.first_file(alloc) {
        Ok(bytes) => Some(bytes.len()),
        Err(_) => None,
    }
}

/// Reports whether two devices agree in all their state.
fn are_same_devices(other: &Devices, one: &Devices) -> bool {
    other.timer() == one.timer()
        && (other.rate(), other.phase()) == (one.rate(), one.phase())
        && other.switches() == one.switches()
        && other.leds() == one.leds()
        && other.mouse() == one.mouse()
        && other.serial() == one.serial()
        && other.keys() == one.keys()
        && other.disk() == one.disk()
}

/// Reports whether two checkpoints agree, and the first has a timer of rate 0.
fn is_same_checkpoint(other: &Checkpoint, one: &Checkpoint) -> bool {
    other.count == one.count
        && other.cpu == one.cpu
        && are_same_devices(&other.devices, &one.devices)
        && other.devices.rate() == 0
        && other.sent.as_slice() == one.sent.as_slice()
        && other.table.numbers() == one.table.numbers()
}

/// Reports whether two recordings agree in each checkpoint.
fn has_same_checkpoints(again: &Recording, recording: &Recording) -> bool {
    if again.count() != recording.count() {
        return false;
    }
    for k in 0..recording.count() {
        if !is_same_checkpoint(again.checkpoint(k), recording.checkpoint(k)) {
            return false;
        }
    }
    true
}

/// Returns the part in which two recordings differ, if they do.
fn different_part(again: &Recording, recording: &Recording) -> Option<&'static str> {
    if again.pool().len() != recording.pool().len() {
        return Some("number of pages");
    }
    if again.inputs().events() != recording.inputs().events() {
        return Some("list of inputs");
    }
    if !has_same_checkpoints(again, recording) {
        return Some("checkpoint");
    }
    None
}

/// Returns the part in which the recording of a sketch changes when it is written and read again, if it does.
fn part_that_changes(alloc: Global, sketch: &Sketch<'_>) -> Option<&'static str> {
    let Some(recording) = first_recording(alloc, sketch) else {
        return Some("answer in version 1");
    };
    let Some(again) = second_recording(alloc, sketch) else {
        return Some("answer in version 2");
    };
    different_part(&again, &recording)
}

/// Returns the first row whose recording changes when it is written, if there is one, and the part that changes.
fn row_that_changes(alloc: Global) -> Option<(usize, &'static str)> {
    for (row, sketch) in SKETCHES.iter().enumerate() {
        if let Some(part) = part_that_changes(alloc, sketch) {
            return Some((row, part));
        }
    }
    None
}

#[test]
fn gives_the_same_recording_in_the_second_version(rt: HostRuntime) {
    if let Some((row, part)) = row_that_changes(rt.alloc()) {
        panic!(rt; "another {part} in row {row}");
    }
}

/// Returns the version of a file.
fn version_of(bytes: &[u8]) -> u8 {
    if bytes.len() > 4 { bytes[4] } else { 0 }
}

/// Reports whether a recording is written in version 2, and shorter than in version 1.
fn is_written_shorter(alloc: Global, sketch: &Sketch<'_>) -> bool {
    let Some(length) = first_length(alloc, sketch) else {
        return false;
    };
    match written_file(alloc, sketch) {
        Some(second) => version_of(&second) == 2 && second.len() < length,
        None => false,
    }
}

/// Returns the first row that is not written so, if there is one.
fn row_of_another_version(alloc: Global) -> Option<usize> {
    for (row, sketch) in SKETCHES.iter().enumerate() {
        if !is_written_shorter(alloc, sketch) {
            return Some(row);
        }
    }
    None
}

#[test]
fn writes_a_shorter_file_of_the_second_version(rt: HostRuntime) {
    check_rows(&rt, row_of_another_version(rt.alloc()));
}

/// Reports whether the pool is that of the stored run.
fn is_stored_pool(pool: &Pool) -> bool {
    pool.len() == 1 && pool.page(1).words[0] == 0x4000_0005
}

/// Reports whether this is the claim of the stored run at its end.
fn is_stored_end(last: &Checkpoint) -> bool {
    last.count == 100
        && last.cpu.r[0] == 5
        && last.cpu.pc == 100
        && last.devices.timer() == 0
        && last.sent.is_empty()
        && last.table.entry(0) == 1
}

/// Returns the part of this recording that is not the stored run's, if there is one.
fn part_unlike_stored(recording: &Recording) -> Option<&'static str> {
    if !is_stored_pool(recording.pool()) {
        return Some("pool");
    }
    if !recording.inputs().events().is_empty() {
        return Some("list of inputs");
    }
    if recording.count() != 2 {
        return Some("number of checkpoints");
    }
    if !is_stored_end(recording.checkpoint(1)) {
        return Some("last checkpoint");
    }
    None
}

/// Returns the same for the recording of the stored run's file.
fn part_read_wrong(alloc: Global) -> Option<&'static str> {
    match first_recording(alloc, &STORED_RUN) {
        Some(recording) => part_unlike_stored(&recording),
        None => Some("answer"),
    }
}

#[test]
fn reads_the_parts_of_a_file(rt: HostRuntime) {
    check_parts(&rt, part_read_wrong(rt.alloc()));
}

/// A word of the file of the stored run that breaks a rule, and the line of the fault.
const BROKEN: [(u16, u32, Fault, &str); 28] = [
    (0, 0, Fault::Magic(0), "refused 2 magic at byte 0\n"),
    (4, 9, Fault::Version(4), "refused 3 version at byte 4\n"),
    // version 2 has the second checkpoint directly after the 144 bytes of the first
    (
        4,
        2,
        Fault::Checkpoint(1192),
        "refused 6 checkpoint at byte 1192\n",
    ),
    (8, 65_537, Fault::Limit(8), "refused 4 limit at byte 8\n"),
    (8, 2, Fault::Short(9504), "refused 1 short at byte 9504\n"),
    (
        12,
        1_000_001,
        Fault::Limit(12),
        "refused 4 limit at byte 12\n",
    ),
    (12, 1, Fault::Short(9504), "refused 1 short at byte 9504\n"),
    (16, 0, Fault::Limit(16), "refused 4 limit at byte 16\n"),
    (16, 4098, Fault::Limit(16), "refused 4 limit at byte 16\n"),
    (20, 1, Fault::Limit(20), "refused 4 limit at byte 20\n"),
    (
        1048,
        1,
        Fault::Checkpoint(1048),
        "refused 6 checkpoint at byte 1048\n",
    ),
    (
        1176,
        1,
        Fault::Checkpoint(1048),
        "refused 6 checkpoint at byte 1048\n",
    ),
    (1180, 2, Fault::Page(1180), "refused 7 page at byte 1180\n"),
    (5272, 2, Fault::Page(5272), "refused 7 page at byte 5272\n"),
    (
        5276,
        0,
        Fault::Checkpoint(5276),
        "refused 6 checkpoint at byte 5276\n",
    ),
    (
        5280,
        0x101,
        Fault::Checkpoint(5276),
        "refused 6 checkpoint at byte 5276\n",
    ),
    (
        5352,
        4_194_304,
        Fault::Checkpoint(5276),
        "refused 6 checkpoint at byte 5276\n",
    ),
    (
        5356,
        16,
        Fault::Checkpoint(5276),
        "refused 6 checkpoint at byte 5276\n",
    ),
    (
        5360,
        5,
        Fault::Checkpoint(5276),
        "refused 6 checkpoint at byte 5276\n",
    ),
    (
        5368,
        4096,
        Fault::Checkpoint(5276),
        "refused 6 checkpoint at byte 5276\n",
    ),
    (
        5372,
        256,
        Fault::Checkpoint(5276),
        "refused 6 checkpoint at byte 5276\n",
    ),
    (
        5376,
        0x0000_0400,
        Fault::Checkpoint(5276),
        "refused 6 checkpoint at byte 5276\n",
    ),
    (
        5380,
        512,
        Fault::Checkpoint(5276),
        "refused 6 checkpoint at byte 5276\n",
    ),
    (
        5384,
        17,
        Fault::Checkpoint(5276),
        "refused 6 checkpoint at byte 5276\n",
    ),
    (
        5388,
        1,
        Fault::Checkpoint(5276),
        "refused 6 checkpoint at byte 5276\n",
    ),
    (
        5404,
        1,
        Fault::Short(9504),
        "refused 1 short at byte 9504\n",
    ),
    (
        5404,
        1_048_577,
        Fault::Checkpoint(5276),
        "refused 6 checkpoint at byte 5276\n",
    ),
    (5408, 2, Fault::Page(5408), "refused 7 page at byte 5408\n"),
];

/// Returns the first row with another fault, or whose fault has another line, if there is one.
fn offset_of_another_fault(alloc: Global) -> Option<u16> {
    for (offset, word, fault, line) in &BROKEN {
        if !is_refused(alloc, 1, &STORED_RUN, &[(*offset, *word)], *fault)
            || !is_line(alloc, *fault, line)
        {
            return Some(*offset);
        }
    }
    None
}

#[test]
fn refuses_each_broken_rule(rt: HostRuntime) {
    if let Some(offset) = offset_of_another_fault(rt.alloc()) {
        panic!(rt; "at {offset}");
    }
}

/// Words of the file of two events that put an event out of its ranges.
const EVENTS_OUT_OF_RANGE: [Turned; 9] = [
    // kind 6
    (&[(1056, 6), (1072, 1)], Fault::Event(1048)),
    (&[(1056, 1), (1072, 6)], Fault::Event(1064)),
    // values above those of their kinds
    (&[(1056, 2), (1060, 4096)], Fault::Event(1048)),
    (&[(1056, 3), (1060, 0x0800_0000)], Fault::Event(1048)),
    (&[(1056, 4), (1060, 256)], Fault::Event(1048)),
    (&[(1072, 5), (1076, 256)], Fault::Event(1064)),
    // counts above 2^40, and falling
    (&[(1048, 0), (1052, 0x101)], Fault::Event(1048)),
    (&[(1064, 1), (1068, 0x100)], Fault::Event(1064)),
    (&[(1048, 5), (1064, 4)], Fault::Event(1064)),
];

#[test]
fn refuses_events_out_of_range(rt: HostRuntime) {
    let alloc = rt.alloc();
    check_rows(
        &rt,
        row_of_another_fault(alloc, 1, &TWO_EVENTS, &EVENTS_OUT_OF_RANGE),
    );
}

#[test]
fn refuses_a_file_with_a_byte_after_it(rt: HostRuntime) {
    let fault = Fault::Trailing(9504);
    assert!(rt; is_refused_with_a_byte_more(rt.alloc(), 1, fault));
    assert!(rt; is_line(rt.alloc(), fault, "refused 8 trailing at byte 9504\n"));
}

/// Reports whether the file of the stored run is refused as short when cut at this length.
fn is_short_at(alloc: Global, len: usize) -> bool {
    match cut_file(alloc, 1, len) {
        Ok(bytes) => is_fault_of(alloc, 1, &bytes, Fault::Short(len as u64)),
        Err(_) => false,
    }
}

/// Returns the first of these lengths at which it is not short, if there is one.
fn length_that_is_not_short(alloc: Global) -> Option<usize> {
    for len in [9503, 23, 0] {
        if !is_short_at(alloc, len) {
            return Some(len);
        }
    }
    None
}

#[test]
fn refuses_a_file_that_is_cut(rt: HostRuntime) {
    if let Some(len) = length_that_is_not_short(rt.alloc()) {
        panic!(rt; "cut to {len} bytes");
    }
}

/// An event of kind 6.
const NO_KIND: Sketch<'static> = Sketch {
    events: &[Event {
        kind: 6,
        ..TIMER_SET
    }],
    ..TWO_EVENTS
};

#[test]
fn refuses_an_event_of_no_kind(rt: HostRuntime) {
    assert!(rt; is_refused(rt.alloc(), 1, &NO_KIND, &[], Fault::Event(1048)));
}

/// Words of the file of the stored run that break two rules, and the first fault.
const TWO_FAULTS: [Turned; 8] = [
    // a page id of checkpoint 0, and a field of checkpoint 1
    (&[(1180, 2), (5276, 0)], Fault::Page(1180)),
    // a field of checkpoint 0, and a page id of checkpoint 1
    (&[(1048, 1), (5408, 2)], Fault::Checkpoint(1048)),
    // a page id and a field of one checkpoint
    (&[(5408, 2), (5356, 16)], Fault::Checkpoint(5276)),
    // two page ids
    (&[(5272, 2), (1184, 2)], Fault::Page(1184)),
    // a field of the last checkpoint, and output that is missing
    (&[(5404, 1), (5360, 5)], Fault::Checkpoint(5276)),
    // the header's last number, and too many pages; and events that are missing
    (&[(20, 1), (8, 65_537)], Fault::Limit(8)),
    (&[(20, 1), (12, 1_000)], Fault::Limit(20)),
    // the version, and the first four bytes
    (&[(4, 3), (0, 0)], Fault::Magic(0)),
];

#[test]
fn gives_the_first_of_two_faults(rt: HostRuntime) {
    let alloc = rt.alloc();
    check_rows(
        &rt,
        row_of_another_fault(alloc, 1, &STORED_RUN, &TWO_FAULTS),
    );
    let words = [(1056, 6), (1064, 1), (1068, 0x101), (1080, 1)];
    assert!(rt; is_refused(alloc, 1, &TWO_EVENTS, &words, Fault::Event(1048)));
}

/// Returns a file with as many pages and events as there can be.
fn largest_file(alloc: Global) -> Result<Vec<u8>, AllocError> {
    let mut bytes = vec![in alloc; 0; 83_113_116]?;
    let header = header(alloc, 1, 65_536, 1_000_000, 1)?;
    for (offset, byte) in header.iter().enumerate() {
        put_byte(&mut bytes, offset, *byte);
    }
    put_word(&mut bytes, 24, JUMP);
    // The last word of the last page, the kind and the value of each event, and the last page id of the table.
    put_byte(&mut bytes, 67_108_884, 7);
    for i in 0..1_000_000usize {
        put_byte(&mut bytes, 67_108_896 + 16 * i, 1);
        put_byte(&mut bytes, 67_108_900 + 16 * i, 9);
    }
    put_byte(&mut bytes, 83_113_114, 1);
    Ok(bytes)
}

/// Returns the recording of this file.
fn most_recording(alloc: Global) -> Option<Recording> {
    let bytes = largest_file(alloc).ok()?;
    read(alloc, &bytes).ok()
}

/// Reports whether the pool is that of this file.
fn is_most_pool(pool: &Pool) -> bool {
    pool.len() == 65_536 && pool.page(1).words[0] == JUMP && pool.page(65_536).words[255] == 7
}

/// Reports whether these are the events of this file.
fn are_most_events(inputs: &Inputs) -> bool {
    let events = inputs.events();
    events.len() == 1_000_000 && events[999_999].input.value() == 9
}

/// Returns the part of this recording that is not that of this file, if there is one.
fn part_unlike_most(recording: &Recording) -> Option<&'static str> {
    if !is_most_pool(recording.pool()) {
        return Some("pool");
    }
    if !are_most_events(recording.inputs()) {
        return Some("list of inputs");
    }
    if recording.count() != 1 {
        return Some("number of checkpoints");
    }
    if recording.checkpoint(0).table.entry(1023) != 65_536 {
        return Some("page number");
    }
    None
}

/// Reports whether the file of a recording has this length in the current version.
fn is_written_in(alloc: Global, recording: &Recording, length: usize) -> bool {
    match write(alloc, recording) {
        Ok(bytes) => bytes.len() == length,
        Err(_) => false,
    }
}

/// Returns the part that is wrong after this file is read and written, if there is one.
fn wrong_part_of_most(alloc: Global) -> Option<&'static str> {
    let Some(recording) = most_recording(alloc) else {
        return Some("answer");
    };
    // 24 bytes, the pages, the events, and a checkpoint with a change
    if !is_written_in(alloc, &recording, 83_109_040) {
        return Some("length of what is written");
    }
    part_unlike_most(&recording)
}

#[test]
fn reads_as_many_pages_and_events_as_there_can_be(rt: HostRuntime) {
    check_parts(&rt, wrong_part_of_most(rt.alloc()));
}
