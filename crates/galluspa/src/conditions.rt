//! The conditions of a search in the memory of a caller, and what it finds.
ghost use Rattle.std.specs.Prelude.{◌≡◌, ◌↔◌, IfOk, IsTrue, map};
ghost use Rattle.galluspa.specs.Conditions.{AreClauses, AreConditions, AreEachConditions, AreJoinable, alters, becomes, changes, clause_of, condition_of, is_joined};
ghost use Rattle.galluspa.specs.Conditions.{is_value, is_word, register_of, span_of, values_of, writes};

use risc_search::{Clause, Condition, Register, Span, Values};
use std::alloc::{AllocError, Global};

/// What is added to the kind of a condition that is joined to the next one of its list.
pub const JOINED: u32 = 1 << 31;

/// The most conditions that are joined with one another.
const MAX_JOINED: u32 = 4;

/// A condition of a search: 24 bytes. Fields that its kind does not name are not read.
///
/// A condition to whose kind 2^31 (`JOINED`) is added is joined to the next one of its list: they hold where both hold, and have the index
/// of the first of them. At most four are joined with one another, and the last of a list is not joined.
///
/// | kind | holds at a count where | fields |
/// |---|---|---|
/// | 1 | the machine runs, and its program counter is in the range | `from`, `end`: word numbers, at most 2^22 |
/// | 2 | the instruction stores to a byte in the range | `from`, `end`: addresses, at most 2^24 |
/// | 3 | it changes a bit of a byte in the range that the mask names | `from`, `end`: addresses, at most 2^20; `value`: the mask, not 0 |
/// | 4 | it loads a byte in the range | `from`, `end`: addresses, at most 2^24 |
/// | 5 | a register is not the value before it, and is after it | `from`: 0 to 15, 16 for H, 17 for the flags; `value` |
/// | 6 | it sends a byte | |
/// | 7 | it sends this byte | `value`: below 256 |
/// | 8 | the machine takes an input of this kind | `value`: 1 to 6 |
/// | 9 | it stops the machine | |
/// | 10 | it writes a register, whatever the value, and does not stop the machine | `from`: the register, as of 5 |
/// | 11 | the machine runs, and before the instruction a register has one of these values | `from`: the register, as of 5; `least`, `most` |
/// | 12 | and so do the bits of a word of RAM that the mask names | `from`: its address; `value`: the mask, not 0; `least`, `most` |
/// | 13 | a bit of a register that the mask names differs after the instruction | `from`: the register, as of 5; `value`: the mask, not 0 |
/// | 14 | it writes a flag that the mask names, and does not stop the machine | `value`: the mask, 1 to 15 |
///
/// The mask of kind 13 is below 16 for the flags.
#[repr(C)]
#[derive(Clone, Copy)]
pub struct RawCondition {
    /// The kind of the condition.
    pub kind: u32,
    /// The first number of the range, or the register.
    pub from: u32,
    /// The number after the last of the range, above `from`.
    pub end: u32,
    /// The mask, the value, the byte or the kind of input.
    pub value: u32,
    /// The first of some values. They go round: 0 comes after 2^32 - 1.
    pub least: u32,
    /// The last of the values.
    pub most: u32,
}

/// A count at which a condition holds, and the index of the first condition that holds there: 16 bytes.
#[repr(C)]
#[derive(Clone, Copy)]
pub struct RawHit {
    /// The count.
    pub count: u64,
    /// The index of the condition.
    pub condition: u64,
}

fn span_of(raw: &RawCondition, most: u32) -> Option<Span>
    ensures { result ≡ span_of most raw.now }
{
    if raw.from < raw.end && raw.end <= most {
        Some(Span {
            from: raw.from,
            end: raw.end,
        })
    } else {
        None
    }
}

fn changes(raw: &RawCondition) -> Option<Condition>
    ensures { result ≡ changes raw.now }
{
    if raw.value == 0 {
        return None;
    }
    match span_of(raw, 1 << 20) {
        Some(bytes) => Some(Condition::Change(bytes, raw.value)),
        None => None,
    }
}

fn becomes(raw: &RawCondition) -> Option<Condition>
    ensures { result ≡ becomes raw.now }
{
    match raw.from {
        0..=15 => Some(Condition::Becomes(Register::Numbered(raw.from as u8), raw.value)),
        16 => Some(Condition::Becomes(Register::Auxiliary, raw.value)),
        17 if raw.value < 16 => Some(Condition::Becomes(Register::Flags, raw.value)),
        _ => None,
    }
}

pub(crate) fn register_of(number: u32) -> Option<Register>
    ensures { result ≡ register_of number }
{
    match number {
        0..=15 => Some(Register::Numbered(number as u8)),
        16 => Some(Register::Auxiliary),
        17 => Some(Register::Flags),
        _ => None,
    }
}

fn writes(raw: &RawCondition) -> Option<Condition>
    ensures { result ≡ writes raw.now }
{
    match register_of(raw.from) {
        Some(register) => Some(Condition::Writes(register)),
        None => None,
    }
}

fn alters(raw: &RawCondition) -> Option<Condition>
    ensures { result ≡ alters raw.now }
{
    if raw.value == 0 || raw.from == 17 && raw.value >= 16 {
        return None;
    }
    match register_of(raw.from) {
        Some(register) => Some(Condition::Alters(register, raw.value)),
        None => None,
    }
}

fn values_of(raw: &RawCondition) -> Values
    ensures { result ≡ values_of raw.now }
{
    Values {
        least: raw.least,
        most: raw.most,
    }
}

fn is_value(raw: &RawCondition) -> Option<Condition>
    ensures { result ≡ is_value raw.now }
{
    if raw.from == 17 && (raw.least >= 16 || raw.most >= 16) {
        return None;
    }
    match register_of(raw.from) {
        Some(register) => Some(Condition::Is(register, values_of(raw))),
        None => None,
    }
}

fn is_word(raw: &RawCondition) -> Option<Condition>
    ensures { result ≡ is_word raw.now }
{
    if raw.from < 1 << 20 && raw.from % 4 == 0 && raw.value != 0 {
        Some(Condition::IsWord(raw.from / 4, raw.value, values_of(raw)))
    } else {
        None
    }
}

#[tactic(auto, unfolding(crate::specs::Conditions::condition_of))]
fn condition_of(raw: &RawCondition) -> Option<Condition>
    ensures { result ≡ condition_of raw.now }
{
    match raw.kind % JOINED {
        1 => match span_of(raw, 1 << 22) {
            Some(words) => Some(Condition::Counter(words)),
            None => None,
        },
        2 => match span_of(raw, 1 << 24) {
            Some(bytes) => Some(Condition::Store(bytes)),
            None => None,
        },
        3 => changes(raw),
        4 => match span_of(raw, 1 << 24) {
            Some(bytes) => Some(Condition::Load(bytes)),
            None => None,
        },
        5 => becomes(raw),
        6 => Some(Condition::Sends),
        7 if raw.value < 256 => Some(Condition::SendsByte(raw.value as u8)),
        8 if 1 <= raw.value && raw.value <= 6 => Some(Condition::Takes(raw.value as u8)),
        9 => Some(Condition::Stops),
        10 => writes(raw),
        11 => is_value(raw),
        12 => is_word(raw),
        13 => alters(raw),
        14 if 1 <= raw.value && raw.value < 16 => Some(Condition::WritesFlags(raw.value)),
        _ => None,
    }
}

fn is_joined(raw: &RawCondition) -> bool
    ensures { result ≡ is_joined raw.now }
{
    raw.kind >= JOINED
}

fn clause_of(raw: &RawCondition) -> Option<Clause>
    ensures { result ≡ clause_of raw.now }
{
    match condition_of(raw) {
        Some(condition) => Some(Clause {
            condition,
            joined: is_joined(raw),
        }),
        None => None,
    }
}

fn are_each_conditions(raws: &[RawCondition]) -> bool
    ensures { IsTrue result ↔ AreEachConditions raws.now }
{
    for raw in raws {
        let Some(_) = condition_of(raw) else {
            return false;
        };
    }
    true
}

/// Reports whether at most four are joined with one another, and the last is not joined.
fn are_joinable(raws: &[RawCondition]) -> bool
    ensures { IsTrue result ↔ AreJoinable (map is_joined raws.now) }
{
    // How many of the last ones are joined.
    let mut joined = 0;
    for raw in raws {
        if is_joined(raw) {
            joined += 1;
        } else {
            joined = 0;
        }
        if joined == MAX_JOINED {
            return false;
        }
    }
    joined == 0
}

/// Tests all conditions before anything is allocated, so that one out of its range is never answered with `OUT_OF_MEMORY`.
pub fn are_conditions(raws: &[RawCondition]) -> bool
    ensures { IsTrue result ↔ AreConditions raws.now }
{
    are_each_conditions(raws) && are_joinable(raws)
}

/// Returns the conditions of a caller, which `are_conditions` has tested. Fails only if memory runs out.
pub fn conditions_of(alloc: Global, raws: &[RawCondition]) -> Result<Vec<Clause>, AllocError>
    requires { AreEachConditions raws.now }
    ensures { IfOk result (λ clauses. AreClauses raws.now clauses.items) }
{
    let mut conditions = Vec::with_capacity(alloc, raws.len())?;
    for raw in raws {
        let Some(clause) = clause_of(raw) else {
            unreachable!()
        };
        conditions.push(clause)?;
    }
    Ok(conditions)
}
