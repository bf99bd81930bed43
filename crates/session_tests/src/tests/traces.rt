//! Traces and profiles of the past of a session, with keyframes and budgets so near that each has to be asked again.

ghost use Rattle.std.specs.Prelude.{◌-◌, ◌<◌, ◌^◌};

use crate::tests::searches::past;
use oberon_past::{OutOfRange, Past, Profiled, Record, Recorded, Steps};
use risc_pages::MEMORY_WORDS;
use risc_search::{Access, Accessed, Effect};
use std::alloc::Global;

/// The three instructions that the run repeats: ADD R0, R0, 1; STW R0 to address 1000H; a branch back.
const ADD: u32 = 0x4008_0001;

const STORE: u32 = 0xA010_1000;

const BRANCH: u32 = 0xE7FF_FFFD;

/// Returns what the instruction of a count does, and R0 before it.
fn expected(count: u32) -> (Effect, u32) {
    let turns = count / 3;
    let (word, accessed, value) = match count % 3 {
        0 => (ADD, None, turns),
        1 => (STORE, Some(stored(turns)), turns + 1),
        _ => (BRANCH, None, turns + 1),
    };
    let effect = Effect {
        word: Some(word),
        accessed,
        sent: None,
        inputs_from: 0,
        inputs_count: 0,
    };
    (effect, value)
}

/// Returns what the store does after so many turns: the word has their number before it, and one more after it.
fn stored(turns: u32) -> Accessed
    requires { turns < 2 ^ 32 - 1 }
{
    Accessed {
        access: Access {
            stores: true,
            first: 0x1000,
            count: 4,
        },
        old: turns,
        new: turns + 1,
    }
}

/// Reports whether a record is the one that is expected for its count.
fn is_expected(record: &Record) -> bool {
    let Ok(count) = u32::try_from(record.count) else {
        return false;
    };
    let (effect, value) = expected(count);
    record.effect == effect && record.cpu.r[0] == value
}

/// Returns the counts of the records of all instructions, from lists with room for a few. Asks as often as that takes.
fn recorded(alloc: Global, past: &mut Past, room: usize) -> Option<Vec<u64>> {
    let budget = Steps::new(5)?;
    let mut counts = Vec::new(alloc);
    let mut from = 0;
    for _turn in 0..1_000u32 {
        let records = match past.records(alloc, from, 100, room, budget) {
            Ok(Recorded::Done(records)) => records,
            Ok(Recorded::More(records)) => records,
            _ => return None,
        };
        for record in &records.list {
            if !is_expected(record) {
                return None;
            }
            counts.push(record.count).ok()?;
        }
        if records.next == 100 {
            return Some(counts);
        }
        from = records.next;
    }
    None
}

/// Reports whether the records of a range are refused for this reason.
fn is_refused(alloc: Global, past: &mut Past, range: (u64, u64), fault: OutOfRange) -> bool {
    let Some(budget) = Steps::new(5) else {
        return false;
    };
    match past.records(alloc, range.0, range.1, 1, budget) {
        Ok(Recorded::OutOfRange(refused)) => refused == fault,
        _ => false,
    }
}

/// How often the words 0, 1 and 2 were executed, and left by a branch.
#[derive(Clone, Copy, PartialEq)]
struct Counted {
    visits: [u64; 3],
    departures: [u64; 3],
}

/// Profiles the counts of a range, and returns the numbers of the first words. Asks as often as that takes.
fn profiled(alloc: Global, past: &mut Past, from: u64, to: u64) -> Option<Counted> {
    let budget = Steps::new(5)?;
    let mut visits = vec![in alloc; 0u64; MEMORY_WORDS as usize].ok()?;
    let mut departures = vec![in alloc; 0u64; MEMORY_WORDS as usize].ok()?;
    let mut from = from;
    for _turn in 0..1_000u32 {
        if visits.len() != MEMORY_WORDS as usize || departures.len() != MEMORY_WORDS as usize {
            return None;
        }
        match past.profile(alloc, from, to, &mut visits, &mut departures, budget) {
            Ok(Profiled::Done) => {
                return Some(Counted {
                    visits: [visits[0], visits[1], visits[2]],
                    departures: [departures[0], departures[1], departures[2]],
                });
            }
            Ok(Profiled::More(next)) => from = next,
            _ => return None,
        }
    }
    None
}

#[test]
fn counts_each_word(rt: HostRuntime) {
    let alloc = rt.alloc();
    let all = Counted {
        visits: [34, 33, 33],
        departures: [0, 0, 33],
    };
    let part = Counted {
        visits: [1, 2, 1],
        departures: [0, 0, 1],
    };
    match past(alloc) {
        Some(mut past) => {
            assert!(rt; profiled(alloc, &mut past, 0, 100) == Some(all), "all");
            assert!(rt; profiled(alloc, &mut past, 22, 26) == Some(part), "part");
            assert!(rt; profiled(alloc, &mut past, 0, 101).is_none(), "later");
        }
        None => panic!(rt; "no past"),
    }
}

#[test]
fn records_each_instruction(rt: HostRuntime) {
    let alloc = rt.alloc();
    match past(alloc) {
        Some(mut past) => {
            for room in [3, 7] {
                match recorded(alloc, &mut past, room) {
                    Some(counts) => assert!(rt; counts.iter().copied().eq(0..100), "{room}"),
                    None => panic!(rt; "no records: {room}"),
                }
            }
            assert!(rt;
                is_refused(alloc, &mut past, (0, 101), OutOfRange::Later),
                "later"
            );
        }
        None => panic!(rt; "no past"),
    }
}
