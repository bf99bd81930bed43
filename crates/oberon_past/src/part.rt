//! The parts of a machine whose writes a past finds, and the conditions that a search for them looks for.
ghost use Rattle.std.specs.Prelude.{◌≡◌, ◌<◌, ◌≤◌, take};
ghost use Rattle.oberon_past.specs.Writes.{alone, byte_span, clause_of, clauses, led_span, register_condition, word_clauses, word_span};

use risc_core::DEVICES;
use risc_devices::words::LEDS;
use risc_pages::MEMORY_WORDS;
use risc_search::{Clause, Condition, Register, Span};

/// A part of a machine.
#[derive(Clone, Copy, Debug, PartialEq, Eq)]
pub enum Part {
    /// The bits of the register that the mask names. R0 to R15 and H are written whole. Of the flags, N (8 in the mask) and Z (4) are
    /// written with each of R0 to R15, C (2) and V (1) by sums and differences alone.
    Register(Register, u32),
    /// The bits that the mask, the second number, names of the word of RAM with the first number. A store writes them if it writes a
    /// byte of the word that has one of them. A word that does not exist is never written.
    Word(u32, u32),
    /// The LEDs. Each store to their device word writes them.
    Leds,
    /// What inputs of the kind with this number, from 1 to 6, set.
    Inputs(u8),
    /// Why the machine stopped.
    Stop,
}

/// Which writes of a part are looked for.
#[derive(Clone, Copy, Debug, PartialEq, Eq)]
pub enum WriteKind {
    /// All writes, whatever the value.
    Any,
    /// Those that change a bit of a register or of a word of RAM that the mask names. Each write of another part counts as a change.
    Changing,
}

/// The clauses of a search for writes: the first `count` of the list.
#[derive(Clone, Copy)]
pub(crate) struct ClauseList {
    pub(crate) list: [Clause; 4],
    pub(crate) count: usize,
}

/// Returns a condition that is joined to none.
fn clause_of(condition: Condition) -> Clause
    ensures { result ≡ clause_of condition }
{
    Clause {
        condition,
        joined: false,
    }
}

/// Returns the list of one condition.
fn alone(condition: Condition) -> ClauseList
    ensures list { take result.count result.list ≡ alone condition }
    ensures few { result.count ≤ 4 }
{
    ClauseList {
        list: [clause_of(condition); 4],
        count: 1,
    }
}

/// Returns the condition that holds where a register is written.
fn register_condition(register: Register, mask: u32, kind: WriteKind) -> Condition
    ensures { result ≡ register_condition register mask kind }
{
    match kind {
        WriteKind::Changing => Condition::Alters(register, mask),
        WriteKind::Any => match register {
            Register::Flags => Condition::WritesFlags(mask),
            Register::Numbered(_) => Condition::Writes(register),
            Register::Auxiliary => Condition::Writes(register),
        },
    }
}

/// Returns the bytes of a word of RAM, or none if there is no such word.
fn word_span(number: u32) -> Span
    ensures { result ≡ word_span number }
{
    if number >= MEMORY_WORDS {
        return Span { from: 0, end: 0 };
    }
    Span {
        from: 4 * number,
        end: 4 * number + 4,
    }
}

/// Returns one byte of a word of RAM if the mask names a bit of it, else none.
fn byte_span(number: u32, mask: u32, byte: u32) -> Span
    requires { byte < 4 }
    ensures { result ≡ byte_span number mask byte }
{
    if number < MEMORY_WORDS && (mask >> 8 * byte) % 0x100 != 0 {
        let from = 4 * number + byte;
        Span {
            from,
            end: from + 1,
        }
    } else {
        Span { from: 0, end: 0 }
    }
}

/// Returns the conditions of which one holds where bits of a word of RAM are written.
fn word_clauses(number: u32, mask: u32, kind: WriteKind) -> ClauseList
    ensures list { take result.count result.list ≡ word_clauses number mask kind }
    ensures few { result.count ≤ 4 }
{
    match kind {
        WriteKind::Changing => alone(Condition::Change(word_span(number), mask)),
        WriteKind::Any => {
            let first = clause_of(Condition::Store(byte_span(number, mask, 0)));
            let second = clause_of(Condition::Store(byte_span(number, mask, 1)));
            let third = clause_of(Condition::Store(byte_span(number, mask, 2)));
            let fourth = clause_of(Condition::Store(byte_span(number, mask, 3)));
            ClauseList {
                list: [first, second, third, fourth],
                count: 4,
            }
        }
    }
}

/// The bytes of the device word of the LEDs.
const LED_BYTES: Span = Span {
    from: DEVICES + 4 * LEDS as u32,
    end: DEVICES + 4 * LEDS as u32 + 4,
};

/// Returns the conditions of which one holds where a part is written.
pub(crate) fn clauses(part: Part, kind: WriteKind) -> ClauseList
    ensures list { take result.count result.list ≡ clauses part kind }
    ensures few { result.count ≤ 4 }
{
    match part {
        Part::Register(register, mask) => alone(register_condition(register, mask, kind)),
        Part::Word(number, mask) => word_clauses(number, mask, kind),
        Part::Leds => alone(Condition::Store(LED_BYTES)),
        Part::Inputs(number) => alone(Condition::Takes(number)),
        Part::Stop => alone(Condition::Stops),
    }
}
