//! Recordings made of parts: each rule that parts can break, broken once.

use crate::tests::files::check_rows;
use oberon_format::{Checkpoint, Fault, Recording, write};
use risc_devices::{Devices, Input};
use risc_model::{Cpu, Event, Flags, Inputs};
use risc_pages::{Page, Pool, Table};
use std::alloc::{AllocError, Global};

/// Count, program counter, stop, bytes of output, a slot and its page id, of a checkpoint that is otherwise zeros.
type Row = (u64, u32, u8, usize, u16, u32);

const ZERO: Row = (0, 0, 0, 0, 0, 0);

const TEN: Row = (10, 0, 0, 0, 0, 0);

/// Returns the checkpoint of a row, if its slot is one.
fn checkpoint(alloc: Global, row: Row) -> Option<Checkpoint> {
    let (count, pc, stop, sent, slot, page_id) = row;
    if slot >= 1024 {
        return None;
    }
    let mut table = Table::zeros();
    table.set(slot, page_id);
    let flags = Flags {
        n: false,
        z: false,
        c: false,
        v: false,
    };
    let devices = Devices::with_timer(0, 0, 0).ok()?;
    Some(Checkpoint {
        count,
        cpu: Cpu {
            r: [0; 16],
            h: 0,
            pc,
            flags,
            stop,
        },
        devices,
        sent: vec![in alloc; 0; sent].ok()?,
        table,
    })
}

/// Returns the checkpoints of these rows.
fn checkpoints_of(alloc: Global, rows: &[Row]) -> Option<Vec<Checkpoint>> {
    let mut checkpoints = Vec::new(alloc);
    for row in rows {
        let checkpoint = checkpoint(alloc, *row)?;
        if checkpoints.push(checkpoint).is_err() {
            return None;
        }
    }
    Some(checkpoints)
}

/// Returns the fault of these parts with no inputs.
fn fault_of_parts(alloc: Global, pool: Pool, checkpoints: Vec<Checkpoint>) -> Option<Fault> {
    match Inputs::new(Vec::new(alloc)) {
        Ok(inputs) => Recording::from_parts(pool, inputs, checkpoints).err(),
        Err(_) => Some(Fault::Memory),
    }
}

/// Reports whether this is the fault of the checkpoints of these rows over no pages.
fn is_fault_of(alloc: Global, rows: &[Row], fault: Option<Fault>) -> bool {
    match checkpoints_of(alloc, rows) {
        Some(checkpoints) => fault_of_parts(alloc, Pool::new(alloc), checkpoints) == fault,
        None => false,
    }
}

/// Returns two checkpoints, the last with a timer of this rate and phase, if they are in their range.
fn with_timer(alloc: Global, rate: u32, phase: u32) -> Option<Vec<Checkpoint>> {
    let devices = Devices::with_timer(7, rate, phase).ok()?;
    let mut checkpoints = checkpoints_of(alloc, &[ZERO, TEN])?;
    match checkpoints.last_mut() {
        Some(last) => last.devices = devices,
        None => return None,
    }
    Some(checkpoints)
}

/// Reports whether they have no fault.
fn is_taken(alloc: Global, rate: u32, phase: u32) -> bool {
    match with_timer(alloc, rate, phase) {
        Some(checkpoints) => fault_of_parts(alloc, Pool::new(alloc), checkpoints).is_none(),
        None => false,
    }
}

/// Rates, and phases that they may have.
const TIMERS: [(u32, u32); 4] = [
    (0, 0),
    (1, 0),
    (25_000, 24_999),
    (4_294_967_295, 4_294_967_294),
];

/// Returns the first row that is refused, if there is one.
fn timer_not_taken(alloc: Global) -> Option<usize> {
    for (row, (rate, phase)) in TIMERS.iter().enumerate() {
        if !is_taken(alloc, *rate, *phase) {
            return Some(row);
        }
    }
    None
}

#[test]
fn takes_parts_whose_timer_counts_by_itself(rt: HostRuntime) {
    check_rows(&rt, timer_not_taken(rt.alloc()));
}

/// Two checkpoints, and their fault. Checkpoint 1 begins at byte 168, or at 176 after a change.
const FAULTS: [(Row, Row, Option<Fault>); 16] = [
    (ZERO, TEN, None),
    (ZERO, (10, 4_194_303, 4, 1_048_576, 0, 0), None),
    ((1, 0, 0, 0, 0, 0), TEN, Some(Fault::Checkpoint(24))),
    ((0, 4_194_304, 0, 0, 0, 0), TEN, Some(Fault::Checkpoint(24))),
    ((0, 0, 5, 0, 0, 0), TEN, Some(Fault::Checkpoint(24))),
    ((0, 0, 0, 1, 0, 0), TEN, Some(Fault::Checkpoint(24))),
    ((0, 0, 0, 0, 0, 1), TEN, Some(Fault::Page(168))),
    (ZERO, ZERO, Some(Fault::Checkpoint(168))),
    (
        ZERO,
        (1_099_511_627_777, 0, 0, 0, 0, 0),
        Some(Fault::Checkpoint(168)),
    ),
    (
        ZERO,
        (10, 4_194_304, 0, 0, 0, 0),
        Some(Fault::Checkpoint(168)),
    ),
    (ZERO, (10, 0, 5, 0, 0, 0), Some(Fault::Checkpoint(168))),
    (
        ZERO,
        (10, 0, 0, 1_048_577, 0, 0),
        Some(Fault::Checkpoint(168)),
    ),
    (ZERO, (10, 0, 0, 0, 1023, 1), Some(Fault::Page(312))),
    // two faults: a page id first, a field first, and both in one checkpoint
    ((0, 0, 0, 0, 0, 1), ZERO, Some(Fault::Page(168))),
    (
        (0, 0, 5, 0, 0, 0),
        (10, 0, 0, 0, 0, 1),
        Some(Fault::Checkpoint(24)),
    ),
    (ZERO, (10, 0, 5, 0, 0, 1), Some(Fault::Checkpoint(168))),
];

/// Returns the first row with another fault, if there is one.
fn row_of_another_fault(alloc: Global) -> Option<usize> {
    for (row, (first, last, fault)) in FAULTS.iter().enumerate() {
        if !is_fault_of(alloc, &[*first, *last], *fault) {
            return Some(row);
        }
    }
    None
}

#[test]
fn refuses_parts_by_the_first_fault_of_their_file(rt: HostRuntime) {
    check_rows(&rt, row_of_another_fault(rt.alloc()));
}

/// Returns two checkpoints that have page id 1 in slots 3 and 900, so that only the page ids in slots 4 and 5 are changes.
fn two_and_two_changes(alloc: Global) -> Option<Vec<Checkpoint>> {
    let mut checkpoints = checkpoints_of(alloc, &[(0, 0, 0, 0, 3, 1), (10, 0, 0, 0, 3, 1)])?;
    for checkpoint in &mut checkpoints {
        checkpoint.table.set(900, 1);
        if checkpoint.count == 10 {
            checkpoint.table.set(4, 1);
            checkpoint.table.set(5, 2);
        }
    }
    Some(checkpoints)
}

/// Returns their fault over one page.
fn fault_over_a_page(alloc: Global) -> Option<Fault> {
    let checkpoints = two_and_two_changes(alloc)?;
    match pool_of(alloc, 1) {
        Ok(pool) => fault_of_parts(alloc, pool, checkpoints),
        Err(_) => Some(Fault::Memory),
    }
}

#[test]
fn counts_the_changes_before_a_fault(rt: HostRuntime) {
    let fault = fault_over_a_page(rt.alloc());
    // 24 and 1,024 bytes, checkpoint 0 with two changes, and checkpoint 1 with a lawful change before the other
    assert!(rt; fault == Some(Fault::Page(1048 + 160 + 144 + 8)));
}

/// Returns a pool of this many pages of zeros.
fn pool_of(alloc: Global, pages: u32) -> Result<Pool, AllocError> {
    let mut pool = Pool::new(alloc);
    for _ in 0..pages {
        if pool.len() > 100_000 {
            return Ok(pool);
        }
        pool.push(Page { words: [0; 256] })?;
    }
    Ok(pool)
}

/// Returns this many events, one before each count.
fn events_of(alloc: Global, input: Input, events: u64) -> Result<Vec<Event>, AllocError> {
    let mut list = Vec::new(alloc);
    for count in 0..events {
        list.push(Event { count, input })?;
    }
    Ok(list)
}

/// Returns the fault of these events with no pages and no checkpoints.
fn fault_of_events(alloc: Global, events: Vec<Event>) -> Option<Fault> {
    match Inputs::new(events) {
        Ok(inputs) => Recording::from_parts(Pool::new(alloc), inputs, Vec::new(alloc)).err(),
        Err(_) => Some(Fault::Memory),
    }
}

#[test]
fn refuses_no_checkpoint(rt: HostRuntime) {
    assert!(rt; is_fault_of(rt.alloc(), &[], Some(Fault::Limit(16))));
}

/// Reports whether a pool of one page more than there can be is refused by its length.
fn is_a_page_too_many(alloc: Global) -> bool {
    match pool_of(alloc, 65_537) {
        Ok(pool) => {
            pool.len() == 65_537
                && fault_of_parts(alloc, pool, Vec::new(alloc)) == Some(Fault::Limit(8))
        }
        Err(_) => false,
    }
}

#[test]
fn refuses_a_page_too_many(rt: HostRuntime) {
    assert!(rt; is_a_page_too_many(rt.alloc()));
}

/// Reports whether one event more than there can be is refused by the number of events.
fn is_an_event_too_many(alloc: Global) -> bool {
    let Ok(input) = Input::new(1, 0) else {
        return false;
    };
    match events_of(alloc, input, 1_000_001) {
        Ok(events) => fault_of_events(alloc, events) == Some(Fault::Limit(12)),
        Err(_) => false,
    }
}

#[test]
fn refuses_an_event_too_many(rt: HostRuntime) {
    assert!(rt; is_an_event_too_many(rt.alloc()));
}

/// Returns this many rows, at the counts from 0 on.
fn rows_of(alloc: Global, rows: u64) -> Result<Vec<Row>, AllocError> {
    let mut list = Vec::new(alloc);
    for count in 0..rows {
        list.push((count, 0, 0, 0, 0, 0))?;
    }
    Ok(list)
}

/// Reports whether one checkpoint more than there can be is refused by the number of checkpoints.
fn is_a_checkpoint_too_many(alloc: Global) -> bool {
    match rows_of(alloc, 4098) {
        Ok(rows) => is_fault_of(alloc, &rows, Some(Fault::Limit(16))),
        Err(_) => false,
    }
}

#[test]
fn refuses_a_checkpoint_too_many(rt: HostRuntime) {
    assert!(rt; is_a_checkpoint_too_many(rt.alloc()));
}

/// Returns two inputs, an answer of a disk the second.
fn two_inputs(alloc: Global) -> Option<Inputs> {
    let first = Input::new(1, 0).ok()?;
    let second = Input::new_with_disk(6, 0xFFFF_FFFF).ok()?;
    let mut events = events_of(alloc, first, 1).ok()?;
    let answer = Event {
        count: 0,
        input: second,
    };
    events.push(answer).ok()?;
    Inputs::new(events).ok()
}

/// Returns the fault of a checkpoint after these inputs.
fn fault_of_an_answer(alloc: Global) -> Option<Fault> {
    let inputs = two_inputs(alloc)?;
    let checkpoints = checkpoints_of(alloc, &[ZERO])?;
    Recording::from_parts(Pool::new(alloc), inputs, checkpoints).err()
}

/// Returns two checkpoints, the last with this answer of a disk.
fn with_answer(alloc: Global, disk: u32) -> Option<Vec<Checkpoint>> {
    let devices = Devices::with_timer(0, 0, 0).ok()?.with_disk(disk);
    let mut checkpoints = checkpoints_of(alloc, &[ZERO, TEN])?;
    match checkpoints.last_mut() {
        Some(last) => last.devices = devices,
        None => return None,
    }
    Some(checkpoints)
}

/// Returns their fault, or that of want of memory.
fn fault_with_disk(alloc: Global, disk: u32) -> Option<Fault> {
    match with_answer(alloc, disk) {
        Some(checkpoints) => fault_of_parts(alloc, Pool::new(alloc), checkpoints),
        None => Some(Fault::Memory),
    }
}

#[test]
fn refuses_answers_of_a_disk(rt: HostRuntime) {
    let alloc = rt.alloc();
    // the header, and the first event
    let event = Some(Fault::Event(24 + 16));
    assert!(rt; fault_of_an_answer(alloc) == event, "as an input");
    assert!(rt;
        fault_with_disk(alloc, 255).is_none(),
        "before its first answer"
    );
    let checkpoint = Some(Fault::Checkpoint(168));
    assert!(rt; fault_with_disk(alloc, 0) == checkpoint, "in a checkpoint");
}

/// Returns the file of a recording with answers of a disk, as an input and in its last checkpoint.
fn file_with_answers(alloc: Global) -> Option<Vec<u8>> {
    let inputs = two_inputs(alloc)?;
    let checkpoints = with_answer(alloc, 0x0102_0304)?;
    let recording = Recording::from_parts_with_disk(Pool::new(alloc), inputs, checkpoints).ok()?;
    write(alloc, &recording).ok()
}

/// Reports whether it is a file of version 3 whose last four bytes are that answer: the header, two events, and two checkpoints.
fn is_third_file(bytes: &[u8]) -> bool {
    bytes.len() == 24 + 32 + 148 + 148
        && bytes[4] == 3
        && bytes[348..352] == [0x04, 0x03, 0x02, 0x01]
}

/// Reports whether that file is such a one.
fn are_answers_taken(alloc: Global) -> bool {
    match file_with_answers(alloc) {
        Some(bytes) => is_third_file(&bytes),
        None => false,
    }
}

#[test]
fn takes_answers_of_a_disk_with_one(rt: HostRuntime) {
    assert!(rt; are_answers_taken(rt.alloc()));
}

/// Returns the fault of this many inputs with a disk, no pages and no checkpoints: that of no checkpoint, if they are not too
/// many.
fn fault_of_inputs_with_disk(alloc: Global, events: u64) -> Option<Fault> {
    let input = Input::new(1, 0).ok()?;
    let events = events_of(alloc, input, events).ok()?;
    let inputs = Inputs::new(events).ok()?;
    Recording::from_parts_with_disk(Pool::new(alloc), inputs, Vec::new(alloc)).err()
}

#[test]
fn takes_more_inputs_with_a_disk(rt: HostRuntime) {
    let fault = fault_of_inputs_with_disk(rt.alloc(), 1_000_001);
    assert!(rt; fault == Some(Fault::Limit(16)));
}
