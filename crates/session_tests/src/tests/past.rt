//! The past of a machine that runs on: it sends a byte more in each turn of its loop, and takes the mouse from inputs.

use oberon_past::{Answer, Ending, Past, PastFault, Progress, Steps};
use risc_core::COUNTER_END;
use risc_devices::{Devices, Input};
use risc_model::{Cpu, Event, Flags};
use std::alloc::Global;

/// R1 := -56, the serial line; R0 := 41H; and then, without end: send R0; R0 := R0 + 1. It sends at the counts 2, 5, 8 and so on.
const PROGRAM: [u32; 5] = [
    0x5100_FFC8,
    0x4000_0041,
    0xA010_0000,
    0x4008_0001,
    0xE7FF_FFFD,
];

/// The first count of the pasts.
const FIRST: u64 = 100;

/// Returns the past that begins with the program at the count `FIRST`, with a keyframe each eight instructions.
fn begun(alloc: Global) -> Option<Past> {
    let mut words = vec![in alloc; 0; 262_144].ok()?;
    for (place, word) in PROGRAM.iter().enumerate() {
        *words.get_mut(place)? = *word;
    }
    let cpu = Cpu {
        r: [0; 16],
        h: 0,
        pc: 0,
        flags: Flags::from_number(0),
        stop: 0,
    };
    let devices = Devices::with_timer(0, 0, 0).ok()?;
    if cpu.pc >= COUNTER_END || cpu.stop > 4 || words.len() != 262_144 {
        return None;
    }
    Past::begin(alloc, FIRST, cpu, devices, &words, Steps::new(8)?).ok()
}

/// Runs a past on. Reports whether it ends at this count for this reason, and sends these bytes.
fn runs(
    alloc: Global,
    past: &mut Past,
    to: u64,
    budget: u64,
    room: usize,
    expected: (u64, Ending, &[u8]),
) -> bool {
    let Some(budget) = Steps::new(budget) else {
        return false;
    };
    match past.run(alloc, to, budget, room) {
        Ok(Progress { sent, ending }) => {
            past.extent().end == expected.0 && ending == expected.1 && sent.as_slice() == expected.2
        }
        Err(_) => false,
    }
}

/// Adds an input of the mouse at a count. Reports whether it is added.
fn moves(past: &mut Past, count: u64, mouse: u32) -> Result<(), PastFault> {
    match Input::new(3, mouse) {
        Ok(input) => past.input(&[Event { count, input }]),
        Err(_) => Err(PastFault::Memory),
    }
}

/// Returns the register R0 and the mouse at a count.
fn seen(alloc: Global, past: &mut Past, count: u64) -> Option<(u32, u32)> {
    let budget = Steps::new(1_000)?;
    let answer = past.at(alloc, count, None, budget).ok()?;
    match answer {
        Answer::Done(moment) => Some((moment.cpu.r[0], moment.devices.mouse())),
        _ => None,
    }
}

/// Returns what is wrong with a past that runs on and is cut, if something is.
fn fault_of_a_live_past(alloc: Global) -> Option<&'static str> {
    let Some(mut past) = begun(alloc) else {
        return Some("the beginning");
    };
    if !runs(
        alloc,
        &mut past,
        106,
        1_000,
        9,
        (106, Ending::Done, &[0x41, 0x42]),
    ) {
        return Some("the first run");
    }
    if moves(&mut past, 106, 7) != Ok(()) || seen(alloc, &mut past, 106) != Some((0x42, 0)) {
        return Some("the input");
    }
    if !runs(alloc, &mut past, 108, 1_000, 9, (108, Ending::Done, &[]))
        || past.extent().reached != 108
    {
        return Some("the run to a keyframe");
    }
    if !runs(
        alloc,
        &mut past,
        109,
        1_000,
        9,
        (109, Ending::Done, &[0x43]),
    ) {
        return Some("the run from a keyframe");
    }
    if seen(alloc, &mut past, 107) != Some((0x43, 7))
        || seen(alloc, &mut past, 106) != Some((0x42, 0))
    {
        return Some("the state after the input, or before it");
    }
    if past.cut(106) != Ok(()) || past.extent().inputs != 0 || past.extent().reached != FIRST {
        return Some("the cut");
    }
    if !runs(alloc, &mut past, 107, 1_000, 9, (107, Ending::Done, &[])) {
        return Some("the run after the cut");
    }
    if seen(alloc, &mut past, 107) != Some((0x43, 0)) {
        return Some("the state after the cut");
    }
    None
}

#[test]
fn runs_on_takes_inputs_and_is_cut(rt: HostRuntime) {
    if let Some(part) = fault_of_a_live_past(rt.alloc()) {
        panic!(rt; "wrong: {part}");
    }
}

/// Returns what is wrong with a past that runs on in steps, beside one that runs on at once, if something is.
fn fault_of_steps(alloc: Global) -> Option<&'static str> {
    let (Some(mut whole), Some(mut stepped)) = (begun(alloc), begun(alloc)) else {
        return Some("the beginning");
    };
    for end in [108, 116, 124, 130] {
        if ending_at(alloc, &mut whole, 130) != Some(end) {
            return Some("the run at once");
        }
    }
    for end in 101..131 {
        if ending_at(alloc, &mut stepped, end) != Some(end) {
            return Some("a step");
        }
        if end == 111 && stepped.extent().keyframes != 2 {
            return Some("a keyframe on the way");
        }
        if seen(alloc, &mut stepped, end) != seen(alloc, &mut whole, end) {
            return Some("the state after a step");
        }
    }
    if seen(alloc, &mut stepped, 107) != seen(alloc, &mut whole, 107) {
        return Some("an earlier state");
    }
    None
}

/// Runs a past on, and returns the count that it comes to.
fn ending_at(alloc: Global, past: &mut Past, to: u64) -> Option<u64> {
    let _ran = past.run(alloc, to, Steps::new(1_000)?, 64).ok()?;
    Some(past.extent().end)
}

#[test]
fn runs_on_in_steps_as_at_once(rt: HostRuntime) {
    if let Some(part) = fault_of_steps(rt.alloc()) {
        panic!(rt; "wrong: {part}");
    }
}

/// Returns what is wrong with runs that end early, if something is.
fn fault_of_early_ends(alloc: Global) -> Option<&'static str> {
    let Some(mut past) = begun(alloc) else {
        return Some("the beginning");
    };
    if !runs(
        alloc,
        &mut past,
        120,
        1_000,
        1,
        (105, Ending::NoRoom, &[0x41]),
    ) {
        return Some("no room");
    }
    if !runs(alloc, &mut past, 120, 1_000, 0, (105, Ending::NoRoom, &[])) {
        return Some("no room at once");
    }
    if !runs(alloc, &mut past, 120, 2, 9, (107, Ending::More, &[0x42])) {
        return Some("the budget");
    }
    if !runs(alloc, &mut past, 120, 1_000, 9, (108, Ending::More, &[])) {
        return Some("a keyframe");
    }
    if !runs(
        alloc,
        &mut past,
        120,
        1_000,
        9,
        (116, Ending::More, &[0x43, 0x44, 0x45]),
    ) {
        return Some("the next keyframe");
    }
    if !runs(
        alloc,
        &mut past,
        120,
        1_000,
        9,
        (120, Ending::Done, &[0x46]),
    ) {
        return Some("the rest");
    }
    if !runs(alloc, &mut past, 120, 1, 9, (120, Ending::Done, &[])) {
        return Some("no step");
    }
    None
}

#[test]
fn ends_where_there_is_no_room_or_no_budget(rt: HostRuntime) {
    if let Some(part) = fault_of_early_ends(rt.alloc()) {
        panic!(rt; "wrong: {part}");
    }
}

/// Returns what is wrong with a branch, if something is.
fn fault_of_a_branch(alloc: Global) -> Option<&'static str> {
    let Some(mut past) = begun(alloc) else {
        return Some("the beginning");
    };
    if !runs(
        alloc,
        &mut past,
        103,
        1_000,
        9,
        (103, Ending::Done, &[0x41]),
    ) || moves(&mut past, 103, 7) != Ok(())
    {
        return Some("the first run");
    }
    if !runs(
        alloc,
        &mut past,
        112,
        1_000,
        9,
        (108, Ending::More, &[0x42]),
    ) {
        return Some("the second run");
    }
    if !runs(
        alloc,
        &mut past,
        112,
        1_000,
        9,
        (112, Ending::Done, &[0x43, 0x44]),
    ) {
        return Some("the third run");
    }
    let Ok(mut branch) = past.branch(alloc, 106) else {
        return Some("the branch");
    };
    if branch.extent().end != 106 || branch.extent().inputs != 1 {
        return Some("what the branch has");
    }
    if seen(alloc, &mut branch, 106) != Some((0x42, 7)) || moves(&mut branch, 106, 9) != Ok(()) {
        return Some("the state of the branch");
    }
    if !runs(alloc, &mut branch, 107, 1_000, 9, (107, Ending::Done, &[])) {
        return Some("the run of the branch");
    }
    if seen(alloc, &mut branch, 107) != Some((0x43, 9))
        || seen(alloc, &mut past, 107) != Some((0x43, 7))
    {
        return Some("the states of both");
    }
    None
}

#[test]
fn branches_share_nothing(rt: HostRuntime) {
    if let Some(part) = fault_of_a_branch(rt.alloc()) {
        panic!(rt; "wrong: {part}");
    }
}

/// Runs a past to a count, and returns why it does not.
fn refused_run(alloc: Global, past: &mut Past, to: u64) -> Option<PastFault> {
    past.run(alloc, to, Steps::new(1)?, 9).err()
}

/// Returns what is refused otherwise than expected, if something is.
fn fault_of_refusals(alloc: Global) -> Option<&'static str> {
    let Some(mut past) = begun(alloc) else {
        return Some("the beginning");
    };
    if !runs(
        alloc,
        &mut past,
        106,
        1_000,
        9,
        (106, Ending::Done, &[0x41, 0x42]),
    ) || moves(&mut past, 110, 7) != Ok(())
    {
        return Some("the first run");
    }
    if moves(&mut past, 105, 7) != Err(PastFault::Order)
        || moves(&mut past, 109, 7) != Err(PastFault::Order)
    {
        return Some("an input too early");
    }
    if moves(&mut past, 1 << 41, 7) != Err(PastFault::Order) || past.extent().inputs != 1 {
        return Some("an input too late");
    }
    if past.cut(99) != Err(PastFault::Earlier) || past.cut(107) != Err(PastFault::Later) {
        return Some("a cut");
    }
    if past.branch(alloc, 99).err() != Some(PastFault::Earlier)
        || past.branch(alloc, 107).err() != Some(PastFault::Later)
    {
        return Some("a branch");
    }
    if refused_run(alloc, &mut past, 105) != Some(PastFault::Earlier) {
        return Some("a run");
    }
    None
}

#[test]
fn refuses_what_is_outside(rt: HostRuntime) {
    if let Some(part) = fault_of_refusals(rt.alloc()) {
        panic!(rt; "wrong: {part}");
    }
}
