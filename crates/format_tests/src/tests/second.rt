//! Files of version 2: what is read is written again, and each rule is broken once.

use crate::tests::files::{
    Turned, check_parts, check_rows, is_fault_of, is_line, is_refused, is_refused_with_a_byte_more,
    put_words, row_of_another_fault,
};
use oberon_format::{Checkpoint, Fault, Recording, read, write};
use recording_texts::{Claim, EMPTY, EQUAL_PAGES, JUMP, ONE_BYTE_SENT, STORED_RUN, Sketch, ZEROS};
use std::alloc::{AllocError, Global};

/// Two pages; checkpoint 0, from byte 2072 on, with changes of slots 0, 7 and 1023 from byte 2216 on; checkpoint 1, from byte
/// 2240 on, with changes of slots 7 and 8 from byte 2384 on, a timer, and two bytes of output.
const FIVE_CHANGES: Sketch<'static> = Sketch {
    pages: &[&[JUMP], &[]],
    events: &[],
    claims: &[
        Claim {
            rate: 25_000,
            phase: 24_999,
            table: &[(0, 1), (7, 2), (1023, 1)],
            ..ZEROS
        },
        Claim {
            count: 10,
            timer: 9,
            rate: 25_000,
            phase: 9,
            table: &[(0, 1), (8, 2), (1023, 1)],
            sent: b"AB",
            ..ZEROS
        },
    ],
};

/// Returns the same from a call, since each use of the constant is proved with all of its parts.
fn five_changes() -> Sketch<'static> {
    FIVE_CHANGES
}

/// Returns the recording of the file of a sketch.
fn second_recording(alloc: Global, sketch: &Sketch<'_>) -> Option<Recording> {
    let bytes = sketch.second_file(alloc).ok()?;
    read(alloc, &bytes).ok()
}

/// Returns the file that is written of the recording of the file of a sketch.
fn file_again(alloc: Global, sketch: &Sketch<'_>) -> Option<Vec<u8>> {
    let recording = second_recording(alloc, sketch)?;
    write(alloc, &recording).ok()
}

/// Reports whether the file of a sketch is the file that is written of its recording.
fn is_written_again(alloc: Global, sketch: &Sketch<'_>) -> bool {
    let Some(again) = file_again(alloc, sketch) else {
        return false;
    };
    match sketch.second_file(alloc) {
        Ok(bytes) => again.as_slice() == bytes.as_slice(),
        Err(_) => false,
    }
}

/// Recordings that have a file of version 2.
const SKETCHES: [Sketch<'static>; 5] = [
    STORED_RUN,
    FIVE_CHANGES,
    EMPTY,
    EQUAL_PAGES,
    ONE_BYTE_SENT,
];

/// Returns the first row whose file is not written again, if there is one.
fn row_of_another_file(alloc: Global) -> Option<usize> {
    for (row, sketch) in SKETCHES.iter().enumerate() {
        if !is_written_again(alloc, sketch) {
            return Some(row);
        }
    }
    None
}

#[test]
fn writes_what_it_reads(rt: HostRuntime) {
    check_rows(&rt, row_of_another_file(rt.alloc()));
}

/// Slots, with their page ids in the two tables of the five changes.
const NUMBERS: [(u16, u32, u32); 5] = [(0, 1, 1), (7, 2, 0), (8, 0, 2), (1023, 1, 1), (9, 0, 0)];

/// Reports whether the tables of the five changes have their page ids.
fn has_numbers(first: &Checkpoint, last: &Checkpoint) -> bool {
    for (slot, before, after) in NUMBERS {
        if slot >= 1024 || first.table.entry(slot) != before || last.table.entry(slot) != after {
            return false;
        }
    }
    true
}

/// Reports whether the timers of the five changes, and the output, are what the file says.
fn has_timers(first: &Checkpoint, last: &Checkpoint) -> bool {
    first.devices.rate() == 25_000
        && first.devices.phase() == 24_999
        && last.devices.timer() == 9
        && last.devices.phase() == 9
        && last.sent.as_slice() == [0x41, 0x42].as_slice()
}

/// Returns the part of this recording that is not that of the five changes, if there is one.
fn part_unlike_five(recording: &Recording) -> Option<&'static str> {
    if recording.count() != 2 || recording.output_len() != 2 {
        return Some("number of checkpoints, or of bytes sent");
    }
    let (first, last) = (recording.checkpoint(0), recording.checkpoint(1));
    if !has_numbers(first, last) {
        return Some("page number");
    }
    if !has_timers(first, last) {
        return Some("timer, or other bytes sent");
    }
    None
}

/// Returns the same for the recording of the five changes' file.
fn part_read_wrong(alloc: Global) -> Option<&'static str> {
    match second_recording(alloc, &five_changes()) {
        Some(recording) => part_unlike_five(&recording),
        None => Some("answer"),
    }
}

#[test]
fn reads_tables_by_their_changes(rt: HostRuntime) {
    check_parts(&rt, part_read_wrong(rt.alloc()));
}

/// A word of the file of the five changes that breaks a rule, and the fault.
const BROKEN: [(u16, u32, Fault); 33] = [
    (0, 0, Fault::Magic(0)),
    (4, 3, Fault::Version(4)),
    (4, 0, Fault::Version(4)),
    (8, 65_537, Fault::Limit(8)),
    (8, 3, Fault::Short(2402)),
    (12, 1_000_001, Fault::Limit(12)),
    (12, 1_000, Fault::Short(2402)),
    (16, 0, Fault::Limit(16)),
    (16, 4098, Fault::Limit(16)),
    (16, 3, Fault::Short(2402)),
    (20, 1, Fault::Limit(20)),
    (2072, 1, Fault::Checkpoint(2072)),
    (2200, 1, Fault::Checkpoint(2072)),
    // the phase at the rate, and a phase of a timer with rate 0
    (2208, 25_000, Fault::Checkpoint(2072)),
    (2372, 0, Fault::Checkpoint(2240)),
    // more changes than slots, and more than there are bytes for
    (2212, 1025, Fault::Checkpoint(2072)),
    (2212, 1024, Fault::Short(2402)),
    (2380, 3, Fault::Short(2402)),
    // a page id above the pages
    (2220, 3, Fault::Page(2216)),
    (2396, 3, Fault::Page(2392)),
    // the page id that was there: zero in checkpoint 0, and in checkpoint 1 what checkpoint 0 left
    (2220, 0, Fault::Page(2216)),
    (2388, 2, Fault::Page(2384)),
    (2396, 0, Fault::Page(2392)),
    // slots that stay or fall, and a slot that is not in the table
    (2224, 0, Fault::Page(2224)),
    (2392, 7, Fault::Page(2392)),
    (2392, 6, Fault::Page(2392)),
    (2232, 1024, Fault::Page(2232)),
    (2216, 1024, Fault::Page(2216)),
    (2240, 0, Fault::Checkpoint(2240)),
    (2316, 4_194_304, Fault::Checkpoint(2240)),
    (2368, 1_048_577, Fault::Checkpoint(2240)),
    // output that is missing, and bytes after it
    (2368, 3, Fault::Short(2402)),
    (2368, 1, Fault::Trailing(2401)),
];

/// Returns the first row with another fault, if there is one.
fn offset_of_another_fault(alloc: Global) -> Option<u16> {
    let sketch = five_changes();
    for (offset, word, fault) in &BROKEN {
        if !is_refused(alloc, 2, &sketch, &[(*offset, *word)], *fault) {
            return Some(*offset);
        }
    }
    None
}

#[test]
fn refuses_each_broken_rule(rt: HostRuntime) {
    if let Some(offset) = offset_of_another_fault(rt.alloc()) {
        panic!(rt; "at {offset}");
    }
}

#[test]
fn refuses_a_change_that_changes_nothing(rt: HostRuntime) {
    let fault = Fault::Page(1192);
    assert!(rt; is_refused(rt.alloc(), 2, &STORED_RUN, &[(1196, 0)], fault));
    assert!(rt; is_line(rt.alloc(), fault, "refused 7 page at byte 1192\n"));
}

/// Words of the file of the five changes that break two rules, and the first fault.
const TWO_FAULTS: [Turned; 8] = [
    // a change of checkpoint 0, and a field of checkpoint 1
    (&[(2220, 3), (2240, 0)], Fault::Page(2216)),
    // a field of checkpoint 0, and its change
    (&[(2156, 5), (2220, 3)], Fault::Checkpoint(2072)),
    // the phase, and changes that are missing
    (&[(2208, 25_000), (2212, 1024)], Fault::Checkpoint(2072)),
    // changes that are missing, and the first of them
    (&[(2212, 1024), (2220, 3)], Fault::Short(2402)),
    // two changes
    (&[(2236, 3), (2228, 3)], Fault::Page(2224)),
    // a change of the last checkpoint, and output that is missing
    (&[(2368, 3), (2396, 3)], Fault::Page(2392)),
    // the header's last number, and events that are missing
    (&[(20, 1), (12, 1_000)], Fault::Limit(20)),
    // an event that is there in bytes of the pages, and checkpoints that are missing
    (&[(8, 1), (12, 65)], Fault::Event(1048)),
];

#[test]
fn gives_the_first_of_two_faults(rt: HostRuntime) {
    check_rows(
        &rt,
        row_of_another_fault(rt.alloc(), 2, &five_changes(), &TWO_FAULTS),
    );
}

/// Returns the greatest length at which the cut file has another fault than expected, if there is one: short below the length at
/// which a fault is there, and then that fault.
fn length_of_another_fault(
    alloc: Global,
    mut bytes: Vec<u8>,
    there: usize,
    fault: Fault,
) -> Option<usize> {
    for cut in 1..2403usize {
        let len = 2402 - cut;
        bytes.truncate(len);
        let wanted = if len < there {
            Fault::Short(len as u64)
        } else {
            fault
        };
        if !is_fault_of(alloc, 2, &bytes, wanted) {
            return Some(len);
        }
    }
    None
}

/// Returns the file of the five changes with these words.
fn five_changes_with(alloc: Global, words: &[(u16, u32)]) -> Result<Vec<u8>, AllocError> {
    let mut bytes = five_changes().second_file(alloc)?;
    put_words(&mut bytes, words);
    Ok(bytes)
}

/// Words that break a rule in the file of the five changes, the length of the file that shows it, and the fault.
const BROKEN_AND_CUT: [(&[(u16, u32)], usize, Fault); 3] = [
    (&[], 2402, Fault::Trailing(0)),
    // stop 5, after the 144 bytes of checkpoint 0
    (&[(2156, 5)], 2216, Fault::Checkpoint(2072)),
    // a number too large in the second change of three
    (&[(2228, 3)], 2240, Fault::Page(2224)),
];

/// Returns where a cut file has another fault, if it has: the length that shows the fault, and the length of the cut file.
fn cut_of_another_fault(alloc: Global) -> Option<(usize, usize)> {
    for (words, there, fault) in BROKEN_AND_CUT {
        match five_changes_with(alloc, words) {
            Ok(bytes) => {
                if let Some(len) = length_of_another_fault(alloc, bytes, there, fault) {
                    return Some((there, len));
                }
            }
            Err(_) => return Some((there, 2402)),
        }
    }
    None
}

#[test]
fn refuses_a_file_cut_at_each_byte(rt: HostRuntime) {
    if let Some((there, len)) = cut_of_another_fault(rt.alloc()) {
        panic!(rt; "another fault of {len} bytes of {there}");
    }
}

#[test]
fn refuses_bytes_after_the_end(rt: HostRuntime) {
    assert!(rt; is_refused_with_a_byte_more(rt.alloc(), 2, Fault::Trailing(1344)));
}
