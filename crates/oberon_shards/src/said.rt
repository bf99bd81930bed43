//! The line of the recording in the line of a shard: read, and made again of what was read.
ghost use Rattle.std.specs.Prelude.{◌≡◌, ◌<◌, ℕ, IfOk, drop, slice_index};
ghost use Rattle.std.specs.Fmt.{decimal};
ghost use Rattle.oberon_format.specs.declared.fault.Fault.{Fault};
ghost use Rattle.oberon_format.specs.Line.{IsNamedFault};
ghost use Rattle.oberon_check.specs.declared.part.Part.{Part};
ghost use Rattle.oberon_check.specs.Line.{part_name};
ghost use Rattle.oberon_shards.specs.Lines.{IsPart};
ghost use Rattle.oberon_shards.specs.Shard.{byte_of};
ghost use Rattle.oberon_shards.specs.inner.Reading.{IsSaid, fault_number, part_from};

use crate::reading::{cut, number_in};
use crate::shard::Finding;
use oberon_check::{Part, Verdict};
use oberon_format::{Fault, refusal};
use std::alloc::{AllocError, Global};

/// The line of a recording, and the count or the byte in it.
#[derive(Drop)]
pub(crate) struct Said {
    pub(crate) count: u64,
    pub(crate) line: Vec<u8>,
}

/// Reads the first line of a text as that of the recording of a shard with this finding, end and number of segments, whatever it is, and
/// makes the line of what was read.
pub(crate) fn said_in(
    alloc: Global,
    finding: Finding,
    to: u32,
    last: u32,
    text: &[u8],
) -> Result<Said, AllocError>
    ensures { IfOk result (λ said. IsSaid finding to last text.now said.count said.line.items) }
{
    match finding {
        Finding::Holds => held_in(alloc, to, last, text),
        Finding::Fails => failed_in(alloc, to, last, text),
        Finding::Refused => refused_in(alloc, to, last, text),
    }
}

/// Reads `accepted K checkpoints N steps`.
fn held_in(alloc: Global, to: u32, last: u32, text: &[u8]) -> Result<Said, AllocError>
    ensures { IfOk result (λ said. IsSaid Finding.Holds to last text.now said.count said.line.items) }
{
    let (_, rest) = cut(text, b' ');
    let (_, rest) = cut(rest, b' ');
    let (_, rest) = cut(rest, b' ');
    let (steps, _) = cut(rest, b' ');
    let steps = number_in(steps);
    let verdict = Verdict::Accepted {
        checkpoints: last,
        steps,
    };
    let line = verdict.line(alloc)?;
    Ok(Said { count: steps, line })
}

/// Reads `false checkpoint K at N part P`.
fn failed_in(alloc: Global, to: u32, last: u32, text: &[u8]) -> Result<Said, AllocError>
    ensures { IfOk result (λ said. IsSaid Finding.Fails to last text.now said.count said.line.items) }
{
    let (_, rest) = cut(text, b' ');
    let (_, rest) = cut(rest, b' ');
    let (_, rest) = cut(rest, b' ');
    let (_, rest) = cut(rest, b' ');
    let (count, rest) = cut(rest, b' ');
    let (_, rest) = cut(rest, b' ');
    let (name, _) = cut(rest, b'\n');
    let count = number_in(count);
    let part = part_in(name);
    let verdict = Verdict::FalseAt {
        checkpoint: to,
        count,
        part,
    };
    let line = verdict.line(alloc)?;
    Ok(Said { count, line })
}

/// Reads `refused F NAME at byte O`.
fn refused_in(alloc: Global, to: u32, last: u32, text: &[u8]) -> Result<Said, AllocError>
    ensures { IfOk result (λ said. IsSaid Finding.Refused to last text.now said.count said.line.items) }
{
    let (_, rest) = cut(text, b' ');
    let (number, rest) = cut(rest, b' ');
    let (_, rest) = cut(rest, b' ');
    let (_, rest) = cut(rest, b' ');
    let (_, rest) = cut(rest, b' ');
    let (byte, _) = cut(rest, b'\n');
    let byte = number_in(byte);
    let fault = fault_in(number_in(number), byte);
    let line = refusal(alloc, &fault)?;
    Ok(Said { count: byte, line })
}

/// Returns the fault with a number and a byte; with another number, any.
fn fault_in(number: u64, byte: u64) -> Fault
    ensures named { IsNamedFault result }
    ensures byte { byte_of result ≡ byte }
    ensures fault { (f : Fault) → IsNamedFault f → fault_number f ≡ number → byte_of f ≡ byte → result ≡ f }
{
    match number {
        1 => Fault::Short(byte),
        2 => Fault::Magic(byte),
        3 => Fault::Version(byte),
        4 => Fault::Limit(byte),
        5 => Fault::Event(byte),
        6 => Fault::Checkpoint(byte),
        7 => Fault::Page(byte),
        _ => Fault::Trailing(byte),
    }
}

/// Returns the part with a name; with another name, any.
fn part_in(name: &[u8]) -> Part
    ensures inside { IsPart result }
    ensures part { (p : Part) → IsPart p → name.now ≡ part_name p → result ≡ p }
{
    let register = index_below(after(name, 1), 16) as u8;
    let page = index_below(after(name, 5), 1024);
    part_from(byte_at(name, 0), byte_at(name, 1), register, page)
}

/// Returns the part whose name begins with two bytes, by its register or page; the second tells those apart that have one first byte.
fn part_from(first: u8, second: u8, register: u8, page: u16) -> Part
    requires { (register < 16) × (page < 1024) }
    ensures inside { IsPart result }
    ensures part { result ≡ part_from first second register page }
{
    match first {
        b'R' => Part::R(register),
        b'H' => Part::H,
        b'P' => Part::Pc,
        b'f' => Part::Flags,
        b't' => Part::Timer,
        b'r' => Part::Rate,
        b'L' => Part::Leds,
        b'm' => Part::Mouse,
        b'k' => Part::Keys,
        b'd' => Part::Disk,
        b'o' => Part::Sent,
        b's' => match second {
            b't' => Part::Stop,
            b'w' => Part::Switches,
            _ => Part::Serial,
        },
        _ => match second {
            b'h' => Part::Phase,
            _ => Part::Page(page),
        },
    }
}

/// Returns the byte at an index, or 0 if there is none.
fn byte_at(text: &[u8], index: usize) -> u8
    ensures { result ≡ slice_index text.now index }
{
    match text.get(index) {
        Some(byte) => *byte,
        None => 0,
    }
}

/// Returns what comes after so many bytes.
fn after(text: &[u8], count: usize) -> &[u8]
    ensures { result.now ≡ drop count text.now }
{
    if count <= text.len() {
        &text[count..]
    } else {
        &text[text.len()..]
    }
}

/// Returns the number below `end` that a text has in decimal digits; of another text, any below it.
fn index_below(text: &[u8], end: u16) -> u16
    requires { 0 < end }
    ensures below { result < end }
    ensures index { (n : ℕ) → n < end → text.now ≡ decimal n → result ≡ n }
{
    let number = number_in(text);
    if number < end as u64 {
        number as u16
    } else {
        0
    }
}
