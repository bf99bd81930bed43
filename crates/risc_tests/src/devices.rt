//! Tests of `risc_devices`: worked examples, and each call at least once.

use risc_devices::{Devices, Input, RangeFault, picture};
use std::alloc::AllocError;
use std::process::Abort;

/// Returns devices with this mouse word, and all else 0 or empty.
fn idle(rt: &impl Abort, mouse: u32) -> Devices {
    Devices::new(0, 0, 0, 0, 0, mouse, 0, &[]).expect(rt, "the parts are in range")
}

/// Takes the input with a kind's number and a value.
fn feed(rt: &impl Abort, devices: &mut Devices, kind: u8, value: u32) {
    let input = Input::new(kind, value).expect(rt, "the input is in range");
    devices.take(input);
}

/// A kind's number, a value, and whether there is such an input.
const INPUTS: [(u8, u32, bool); 13] = [
    (0, 0, false),
    (1, 0xFFFF_FFFF, true),
    (2, 4095, true),
    (2, 4096, false),
    (3, 0x073F_F3FF, true),
    (3, 0x0800_0000, false),
    (3, 0x0000_0400, false),
    (3, 0x0040_0000, false),
    (4, 255, true),
    (4, 256, false),
    (5, 255, true),
    (5, 256, false),
    (6, 0, false),
];

/// The same with a disk.
const INPUTS_WITH_DISK: [(u8, u32, bool); 6] = [
    (0, 0, false),
    (5, 255, true),
    (5, 256, false),
    (6, 0, true),
    (6, 0xFFFF_FFFF, true),
    (7, 0, false),
];

/// Reports whether an input was made exactly if `is_input` says that there is one.
fn is_input_made(made: Result<Input, RangeFault>, kind: u8, value: u32, is_input: bool) -> bool {
    match made {
        Ok(input) => is_input && input.kind() == kind && input.value() == value,
        Err(fault) => !is_input && fault == RangeFault && fault.number() == 1,
    }
}

/// Returns the kind and the value of the first row that fails, if there is one.
fn input_made_wrong() -> Option<(u8, u32)> {
    for (kind, value, is_input) in &INPUTS {
        if !is_input_made(Input::new(*kind, *value), *kind, *value, *is_input) {
            return Some((*kind, *value));
        }
    }
    for (kind, value, is_input) in &INPUTS_WITH_DISK {
        let made = Input::new_with_disk(*kind, *value);
        if !is_input_made(made, *kind, *value, *is_input) {
            return Some((*kind, *value));
        }
    }
    None
}

#[test]
fn takes_inputs_in_their_ranges_alone(rt: HostRuntime) {
    if let Some((kind, value)) = input_made_wrong() {
        panic!(rt; "kind {kind}, value {value}");
    }
}

/// Reads device words in turn, and returns the first whose value is not the expected one, if there is one.
fn word_read_wrong(devices: &mut Devices, rows: &[(u8, u32)]) -> Option<u8> {
    for (word, expected) in rows {
        if *word >= 16 || devices.read(*word) != *expected {
            return Some(*word);
        }
    }
    None
}

/// Checks that no word is wrong.
fn check_words(rt: &impl Abort, wrong: Option<u8>) {
    if let Some(word) = wrong {
        panic!(rt; "word {word}");
    }
}

#[test]
fn reads_a_key_that_waits(rt: HostRuntime) {
    let mut devices = idle(&rt, 0);
    feed(&rt, &mut devices, 4, 0x41);
    let rows = [(6, 0x1000_0000), (7, 0x41), (6, 0), (7, 0)];
    check_words(&rt, word_read_wrong(&mut devices, &rows));
}

#[test]
fn reads_a_byte_of_the_serial_line(rt: HostRuntime) {
    let mut devices = idle(&rt, 0);
    feed(&rt, &mut devices, 5, 0x55);
    assert!(rt; devices.serial() == 0x155, "before");
    let rows = [(3, 3), (2, 0x55), (3, 2), (2, 0x55)];
    check_words(&rt, word_read_wrong(&mut devices, &rows));
    assert!(rt; devices.serial() == 0x55, "after");
}

#[test]
fn keeps_sixteen_keys_of_seventeen(rt: HostRuntime) {
    let mut devices = idle(&rt, 0);
    for code in 1..18 {
        feed(&rt, &mut devices, 4, code);
    }
    let expected = [1, 2, 3, 4, 5, 6, 7, 8, 9, 10, 11, 12, 13, 14, 15, 16];
    assert_eq!(rt; devices.keys(), &expected[..]);
}

#[test]
fn reads_what_the_disk_answered(rt: HostRuntime) {
    let mut devices = idle(&rt, 0);
    assert!(rt; devices.disk() == 255, "before its first answer");
    let answer = Input::new_with_disk(6, 0x1234_5678).expect(&rt, "the disk answers any word");
    devices.take(answer);
    assert!(rt; devices.write(4, 0x40).is_none() && devices.write(5, 5).is_none());
    let rows = [(4, 0x1234_5678), (5, 1), (4, 0x1234_5678)];
    check_words(&rt, word_read_wrong(&mut devices, &rows));
    let other = devices.copy().with_disk(9);
    assert!(rt; devices.disk() == 0x1234_5678 && other.disk() == 9, "after");
}

/// Device words to read in turn, each with the expected value.
const READ_WORDS: [(u8, u32); 16] = [
    (0, 7),
    (1, 0xA5C),
    (2, 0),
    (3, 2),
    (4, 255),
    (5, 1),
    (6, 0x0712_3045),
    (7, 0),
    (8, 0),
    (9, 0),
    (10, 0),
    (11, 0),
    (12, 0),
    (13, 0),
    (14, 0),
    (15, 0),
];

#[test]
fn reads_each_word(rt: HostRuntime) {
    let mut devices = idle(&rt, 0);
    feed(&rt, &mut devices, 3, 0x0712_3045);
    feed(&rt, &mut devices, 1, 7);
    feed(&rt, &mut devices, 2, 0xA5C);
    check_words(&rt, word_read_wrong(&mut devices, &READ_WORDS));
}

/// Device words and values to write in turn, each with the byte sent and the LEDs after it.
const WRITES: [(u8, u32, Option<u8>, u8); 7] = [
    (0, 0xFFFF_FFFF, None, 0),
    (1, 0x0000_01A5, None, 0xA5),
    (2, 0x0000_0141, Some(0x41), 0xA5),
    (4, 0x0000_0040, None, 0xA5),
    (5, 0x0000_0005, None, 0xA5),
    (6, 0x0712_3045, None, 0xA5),
    (15, 1, None, 0xA5),
];

/// Returns the first word whose write sends another byte or leaves other LEDs, if there is one.
fn word_written_wrong(devices: &mut Devices) -> Option<u8> {
    for (word, value, sent, leds) in &WRITES {
        if *word >= 16 || devices.write(*word, *value) != *sent || devices.leds() != *leds {
            return Some(*word);
        }
    }
    None
}

#[test]
fn writes_leds_and_sends(rt: HostRuntime) {
    let mut devices = idle(&rt, 0);
    check_words(&rt, word_written_wrong(&mut devices));
    assert!(rt; devices.timer() == 0 && devices.mouse() == 0);
}

/// Rate, phase, switches, mouse word, serial number and number of keys, one of them out of its range.
const OUT_OF_RANGE: [(u32, u32, u16, u32, u16, usize); 6] = [
    (0, 1, 0, 0, 0, 0),
    (10, 10, 0, 0, 0, 0),
    (0, 0, 4096, 0, 0, 0),
    (0, 0, 0, 0x0800_0000, 0, 0),
    (0, 0, 0, 0, 512, 0),
    (0, 0, 0, 0, 0, 17),
];

/// Reports whether `Devices::new` takes these parts, with this number of keys.
fn has_devices(
    (rate, phase, switches, mouse, serial, keys): (u32, u32, u16, u32, u16, usize),
) -> bool {
    let codes = [9; 17];
    if keys > 17 {
        return false;
    }
    Devices::new(0, rate, phase, switches, 0, mouse, serial, &codes[..keys]).is_ok()
}

#[test]
fn makes_devices_of_parts_in_range_alone(rt: HostRuntime) {
    for parts in OUT_OF_RANGE {
        assert!(rt; !has_devices(parts));
    }
}

/// Reports whether each part of the devices is the largest possible.
fn are_largest(devices: &Devices) -> bool {
    devices.timer() == 0xFFFF_FFFF
        && (devices.rate(), devices.phase()) == (10, 9)
        && devices.switches() == 4095
        && devices.leds() == 255
        && devices.mouse() == 0x073F_F3FF
        && devices.serial() == 511
        && devices.keys() == [9; 16].as_slice()
}

#[test]
fn makes_devices_of_the_largest_parts(rt: HostRuntime) {
    let made = Devices::new(0xFFFF_FFFF, 10, 9, 4095, 255, 0x073F_F3FF, 511, &[9; 16]);
    let devices = made.expect(&rt, "the parts are in range").copy();
    assert!(rt; are_largest(&devices), "another part");
}

/// Returns devices with this timer, rate and phase, and all else 0 or empty.
fn timer_devices((timer, rate, phase): (u32, u32, u32)) -> Option<Devices> {
    Devices::with_timer(timer, rate, phase).ok()
}

/// Returns the timer, rate and phase of devices.
fn clock_of(devices: &Devices) -> (u32, u32, u32) {
    (devices.timer(), devices.rate(), devices.phase())
}

/// Returns the timer, rate and phase after `count` calls of `tick`.
fn counted_slowly(clock: (u32, u32, u32), count: u64) -> Option<(u32, u32, u32)> {
    let mut devices = timer_devices(clock)?;
    for _ in 0..count {
        devices.tick();
    }
    Some(clock_of(&devices))
}

/// Returns the timer, rate and phase after one call of `tick_times`.
fn counted_at_once(clock: (u32, u32, u32), count: u64) -> Option<(u32, u32, u32)> {
    let mut devices = timer_devices(clock)?;
    devices.tick_times(count);
    Some(clock_of(&devices))
}

/// Timer, rate and phase; the number of instructions counted; and timer, rate and phase after that.
const COUNTED: [((u32, u32, u32), u64, (u32, u32, u32)); 6] = [
    ((0, 10, 0), 25, (2, 10, 5)),
    ((7, 0, 0), 25, (7, 0, 0)),
    ((7, 1, 0), 3, (10, 1, 0)),
    ((0xFFFF_FFFF, 3, 2), 1, (0, 3, 0)),
    ((0xFFFF_FFFE, 3, 1), 8, (1, 3, 0)),
    (
        (0xFFFF_FFFF, 0xFFFF_FFFF, 0xFFFF_FFFE),
        1,
        (0, 0xFFFF_FFFF, 0),
    ),
];

/// Returns the first row that fails, if there is one.
fn row_counted_wrong() -> Option<usize> {
    for (row, (before, count, after)) in COUNTED.iter().enumerate() {
        if counted_slowly(*before, *count) != Some(*after)
            || counted_at_once(*before, *count) != Some(*after)
        {
            return Some(row);
        }
    }
    None
}

#[test]
fn counts_instructions_one_by_one_and_at_once(rt: HostRuntime) {
    if let Some(row) = row_counted_wrong() {
        panic!(rt; "row {row}");
    }
    let most = counted_at_once((0, 10, 5), u64::MAX);
    assert!(rt;
        most == Some((0x9999_999A, 10, 0)),
        "as many as there can be"
    );
}

#[test]
fn keeps_the_phase_where_the_timer_is_set(rt: HostRuntime) {
    let mut devices = timer_devices((7, 10, 9)).expect(&rt, "the phase is below the rate");
    feed(&rt, &mut devices, 1, 100);
    assert!(rt; clock_of(&devices) == (100, 10, 9), "once it is set");
    devices.tick();
    assert!(rt;
        devices.timer() == 101 && devices.phase() == 0,
        "one instruction later"
    );
}

/// Reports whether the bytes are a picture in which only the byte at `at` is not 0, and is `byte`.
fn has_dot(bytes: &[u8], at: usize, byte: u8) -> bool {
    if bytes.len() != 98_316 || !bytes.starts_with(b"P4\n1024 768\n") {
        return false;
    }
    for (k, dots) in bytes.iter().enumerate() {
        if k >= 12 && *dots != if k == at { byte } else { 0 } {
            return false;
        }
    }
    true
}

#[test]
fn draws_a_dot_in_each_corner(rt: HostRuntime) -> Result<(), AllocError> {
    let rows = [(0, 1, 98_188, 0x80), (24_575, 0x8000_0000, 139, 0x01)];
    for (place, word, at, byte) in rows {
        let mut words = [0; 24_576];
        words[place] = word;
        let bytes = picture(rt.alloc(), &words)?;
        assert!(rt; has_dot(&bytes, at, byte), "at byte {at}");
    }
    Ok(())
}
