//! Searches through the past of a session, with keyframes and budgets so near that each search has to be asked again.

use oberon_past::{
    AllFound, Found, LastWrite, OutOfRange, Part, Past, Steps, Which, WriteKind, Writer,
};
use oberon_session::{make_recording, read_session};
use risc_search::{Clause, Condition, MAX_CONDITIONS, Register, Span, Values};
use std::alloc::Global;

/// A run of 100 instructions, three that repeat: ADD R0, R0, 1; STW R0 to address 1000H; a branch back.
const SESSION: &str =
    "{\"format\":\"oberon-session\",\"version\":2,\"start\":{\"R\":[0,0,0,0,0,0,0,0,0,0,0,0,0,0,0,0],\"H\":0,\"PC\":0,\"flags\":0,\"rate\":0,\"phase\":0},\"pages\":[{\"at\":0,\"hex\":\"01000840001010a0fdffffe7\"}],\"inputs\":[],\"checkpoints\":[100]}";

/// The store: at counts 1, 4 and so on to 97.
const STORES: [Clause; 1] = [Clause {
    condition: Condition::Store(Span {
        from: 0x1000,
        end: 0x1004,
    }),
    joined: false,
}];

/// R0 is 13 before the ADD: at count 39.
const AT_13: [Clause; 2] = [
    Clause {
        condition: Condition::Counter(Span { from: 0, end: 1 }),
        joined: true,
    },
    Clause {
        condition: Condition::Is(
            Register::Numbered(0),
            Values {
                least: 13,
                most: 13,
            },
        ),
        joined: false,
    },
];

/// A range, and the counts of its first and its last store.
const RANGES: [(u64, u64, Option<u64>, Option<u64>); 6] = [
    (0, 100, Some(1), Some(97)),
    (1, 97, Some(1), Some(94)),
    (2, 98, Some(4), Some(97)),
    (5, 7, None, None),
    (7, 7, None, None),
    (7, 8, Some(7), Some(7)),
];

/// Conditions on registers, and the counts of the first and the last hit. R0 becomes n by the ADD of count 3 (n - 1): its bit 2 changes
/// where it becomes a multiple of 4, and no flag ever does.
const REGISTERS: [(Condition, Option<u64>, Option<u64>); 4] = [
    (
        Condition::Alters(Register::Numbered(0), 4),
        Some(9),
        Some(93),
    ),
    (Condition::Alters(Register::Flags, 15), None, None),
    (Condition::WritesFlags(1), Some(0), Some(99)),
    (Condition::WritesFlags(16), None, None),
];

/// Parts, a count, and that of the last write before it. R0 becomes 32 at count 93, which the store of count 94 writes.
const PARTS: [(Part, WriteKind, u64, Option<u64>); 7] = [
    (
        Part::Register(Register::Numbered(0), 1),
        WriteKind::Any,
        99,
        Some(96),
    ),
    (
        Part::Register(Register::Numbered(0), 32),
        WriteKind::Changing,
        100,
        Some(93),
    ),
    (Part::Word(0x400, 0xFF00), WriteKind::Any, 100, Some(97)),
    (Part::Word(0x400, 32), WriteKind::Changing, 100, Some(94)),
    (Part::Word(0x401, 32), WriteKind::Any, 100, None),
    (Part::Leds, WriteKind::Any, 100, None),
    (Part::Stop, WriteKind::Any, 100, None),
];

/// Returns the past of the session.
pub(super) fn past(alloc: Global) -> Option<Past> {
    let session = read_session(alloc, SESSION.as_bytes()).ok()?;
    let recording = make_recording(alloc, &session).ok()?;
    Past::open(alloc, recording, Steps::new(8)?).ok()
}

/// Returns the count of the first hit of a range, or of the last one; or none, if there is none. Asks as often as that takes.
fn found(
    alloc: Global,
    past: &mut Past,
    range: (u64, u64),
    conditions: &[Clause],
    which: Which,
) -> Option<Option<u64>> {
    let budget = Steps::new(5)?;
    let (mut from, mut to) = range;
    for _turn in 0..1_000u32 {
        if conditions.len() > MAX_CONDITIONS {
            return None;
        }
        match past.find(alloc, from, to, conditions, which, budget) {
            Ok(Found::Done(Some(hit))) => return Some(Some(hit.count)),
            Ok(Found::Done(None)) => return Some(None),
            Ok(Found::More(at)) => match which {
                Which::First => from = at,
                Which::Last => to = at,
            },
            _ => return None,
        }
    }
    None
}

/// Returns the first range of the table in which other stores are found, if there is one.
fn range_of_another_hit(alloc: Global, past: &mut Past) -> Option<(u64, u64)> {
    for (from, to, first, last) in &RANGES {
        let range = (*from, *to);
        if found(alloc, past, range, &STORES, Which::First) != Some(*first)
            || found(alloc, past, range, &STORES, Which::Last) != Some(*last)
        {
            return Some(range);
        }
    }
    None
}

/// Returns the first condition of the table that holds first or last at other counts, if there is one.
fn condition_of_other_hits(alloc: Global, past: &mut Past) -> Option<Condition> {
    for (condition, first, last) in &REGISTERS {
        let clauses = [Clause {
            condition: *condition,
            joined: false,
        }];
        if found(alloc, past, (0, 100), &clauses, Which::First) != Some(*first)
            || found(alloc, past, (0, 100), &clauses, Which::Last) != Some(*last)
        {
            return Some(*condition);
        }
    }
    None
}

/// Returns the count of the last write of a part before a count; or none, if there is none. Asks as often as that takes.
fn written(
    alloc: Global,
    past: &mut Past,
    part: Part,
    kind: WriteKind,
    before: u64,
) -> Option<Option<u64>> {
    let budget = Steps::new(5)?;
    let mut before = before;
    for _turn in 0..1_000u32 {
        match past.write(alloc, part, kind, before, budget) {
            Ok(LastWrite::Done(Some(write))) if write.by == Writer::Instruction => return Some(Some(
                write.count,
            )),
            Ok(LastWrite::Done(None)) => return Some(None),
            Ok(LastWrite::More(at)) => before = at,
            _ => return None,
        }
    }
    None
}

/// Returns the first part of the table that is written last at another count, if there is one.
fn part_of_another_write(alloc: Global, past: &mut Past) -> Option<Part> {
    for (part, kind, before, count) in &PARTS {
        if written(alloc, past, *part, *kind, *before) != Some(*count) {
            return Some(*part);
        }
    }
    None
}

/// Reports whether a range is refused for this reason.
fn is_refused(alloc: Global, past: &mut Past, range: (u64, u64), fault: OutOfRange) -> bool {
    let Some(budget) = Steps::new(5) else {
        return false;
    };
    let found = past.find(alloc, range.0, range.1, &[], Which::First, budget);
    found == Ok(Found::OutOfRange(fault))
}

/// Returns the counts of all stores, from lists with room for a few. Asks as often as that takes.
fn stores(alloc: Global, past: &mut Past) -> Option<Vec<u64>> {
    let room = 3;
    let budget = Steps::new(20)?;
    let mut counts = Vec::new(alloc);
    let mut from = 0;
    for _turn in 0..1_000u32 {
        let (hits, is_done) = match past.hits(alloc, from, 100, &STORES, room, budget) {
            Ok(AllFound::Done(hits)) => {
                let is_done = hits.list.len() < room;
                (hits, is_done)
            }
            Ok(AllFound::More(hits)) => (hits, false),
            _ => return None,
        };
        for hit in &hits.list {
            counts.push(hit.count).ok()?;
        }
        if is_done {
            return Some(counts);
        }
        from = hits.next;
    }
    None
}

#[test]
fn finds_the_first_and_the_last_hit(rt: HostRuntime) {
    let alloc = rt.alloc();
    match past(alloc) {
        Some(mut past) => {
            if let Some((from, to)) = range_of_another_hit(alloc, &mut past) {
                panic!(rt; "{from}..{to}");
            }
            let all = (0, 100);
            assert!(rt;
                found(alloc, &mut past, all, &AT_13, Which::First) == Some(Some(39)),
                "first"
            );
            assert!(rt;
                found(alloc, &mut past, all, &AT_13, Which::Last) == Some(Some(39)),
                "last"
            );
        }
        None => panic!(rt; "no past"),
    }
}

#[test]
fn finds_writes_of_registers(rt: HostRuntime) {
    let alloc = rt.alloc();
    match past(alloc) {
        Some(mut past) => if let Some(condition) = condition_of_other_hits(alloc, &mut past) {
            panic!(rt; "{condition:?}");
        },
        None => panic!(rt; "no past"),
    }
}

#[test]
fn finds_the_last_write(rt: HostRuntime) {
    let alloc = rt.alloc();
    match past(alloc) {
        Some(mut past) => if let Some(part) = part_of_another_write(alloc, &mut past) {
            panic!(rt; "{part:?}");
        },
        None => panic!(rt; "no past"),
    }
}

#[test]
fn finds_all_hits(rt: HostRuntime) {
    let alloc = rt.alloc();
    match past(alloc) {
        Some(mut past) => match stores(alloc, &mut past) {
            Some(counts) => assert!(rt; counts.iter().copied().eq((1..100).step_by(3)), "stores"),
            None => panic!(rt; "no stores"),
        },
        None => panic!(rt; "no past"),
    }
}

#[test]
fn refuses_ranges(rt: HostRuntime) {
    let alloc = rt.alloc();
    match past(alloc) {
        Some(mut past) => {
            assert!(rt;
                is_refused(alloc, &mut past, (0, 101), OutOfRange::Later),
                "later"
            );
            assert!(rt;
                is_refused(alloc, &mut past, (50, 49), OutOfRange::Backward),
                "backward"
            );
        }
        None => panic!(rt; "no past"),
    }
}
