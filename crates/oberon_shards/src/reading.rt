//! Reading the lines of shards.
ghost use Rattle.std.specs.Prelude.{◌≡◌, ◌<◌, ◌≤◌, ◌^◌, ◌++◌, ◌↔◌, ℕ, List, [], IfOk, IsTrue, MatchOption, codes, length};
ghost use Rattle.std.specs.Fmt.{decimal};
ghost use Rattle.hex.specs.Hex.{IsBytes, encode_lower};
ghost use Rattle.oberon_shards.specs.Shard.{finding_word};
ghost use Rattle.oberon_shards.specs.Lines.{HasNoShard, IsInRanges};
ghost use Rattle.oberon_shards.specs.inner.Reading.{AreRead, IsCut, IsNext, IsRead};
ghost use Rattle.oberon_shards.specs.declared.shard.Finding.{Finding};

use crate::said::said_in;
use crate::shard::{Finding, Shard};
use hex::FromHex;
use memchr::memchr;
use oberon_format::{LAST_CHECKPOINT, MAX_COUNT};
use std::alloc::{AllocError, Global};
use std::str;

/// Reads lines of shards, in order, up to the first that is not one of a shard, and returns the rest of the text.
pub(crate) fn read_shards<'a>(
    alloc: Global,
    text: &'a [u8],
    shards: &mut Vec<Shard>,
) -> Result<&'a [u8], AllocError>
    requires { shards.old.items ≡ [] }
    ensures { IfOk result (λ rest. AreRead text.now shards.new.items rest.now) }
{
    let mut rest = text;
    while !rest.is_empty() {
        match next_shard(alloc, rest)? {
            Some((shard, more)) => {
                shards.push(shard)?;
                rest = more;
            }
            None => return Ok(rest),
        }
    }
    Ok(rest)
}

/// Reads the shard whose line is the first of a text, and returns it with the rest of the text; or `None` if that line is not a
/// shard's. The line is read loosely, printed again and compared, and its numbers have to be in their ranges.
fn next_shard<'a>(alloc: Global, text: &'a [u8]) -> Result<Option<(Shard, &'a [u8])>, AllocError>
    ensures { IfOk result (λ found. MatchOption found (HasNoShard text.now) (λ p. IsNext text.now p.0 p.1.now)) }
{
    let shard = first_shard(alloc, text)?;
    if !is_in_ranges(&shard) {
        return Ok(None);
    }
    let line = shard.text(alloc)?;
    match text.strip_prefix(&line[..]) {
        Some(rest) => Ok(Some((shard, rest))),
        None => Ok(None),
    }
}

/// Reads the first line of a text as that of a shard, whatever it is.
fn first_shard(alloc: Global, text: &[u8]) -> Result<Shard, AllocError>
    ensures { IfOk result (IsRead text.now) }
{
    let (_, rest) = cut(text, b' ');
    let (digest, rest) = cut(rest, b' ');
    let (from, rest) = cut(rest, b' ');
    let (to, rest) = cut(rest, b' ');
    let (last, rest) = cut(rest, b' ');
    let (finding, rest) = cut(rest, b' ');
    let to = index_in(to);
    let last = index_in(last);
    let finding = finding_in(finding);
    let said = said_in(alloc, finding, to, last, rest)?;
    Ok(Shard {
        digest: digest_in(digest),
        from: index_in(from),
        to,
        last,
        finding,
        count: said.count,
        line: said.line,
    })
}

/// Returns whether the numbers of a shard are those of some recording, or of a file that is none.
fn is_in_ranges(shard: &Shard) -> bool
    ensures { IsTrue result ↔ (shard.now.last ≤ LAST_CHECKPOINT) × IsInRanges shard.now.finding shard.now }
{
    if shard.last > LAST_CHECKPOINT {
        return false;
    }
    let count = shard.count;
    let to = shard.to as u64;
    let last = shard.last as u64;
    match shard.finding {
        Finding::Holds => {
            shard.from <= shard.to
                && to <= last
                && last <= count
                && count <= MAX_COUNT
                && (last != 0 || count == 0)
        }
        Finding::Fails => {
            shard.from < shard.to && to <= last && to <= count && count <= MAX_COUNT - (last - to)
        }
        Finding::Refused => shard.from == 0 && shard.to == 0 && shard.last == 0,
    }
}

/// Returns what is before and after the first such byte; without it, all is before.
pub(crate) fn cut<'a>(text: &'a [u8], byte: u8) -> (&'a [u8], &'a [u8])
    ensures { IsCut byte text.now result.0.now result.1.now }
{
    match memchr(byte, text) {
        Some(at) => (&text[..at], &text[at + 1..]),
        None => (text, &text[text.len()..]),
    }
}

/// Returns the digest that a text has in hexadecimal digits; of another text, zeros.
fn digest_in(text: &[u8]) -> [u8; 32]
    ensures name { (name : List ℕ) → length name ≡ 32 → IsBytes name → text.now ≡ encode_lower name → result ≡ name }
    ensures length { length result ≡ 32 }
    ensures bytes { IsBytes result }
{
    match <[u8; 32] as FromHex>::from_hex(text) {
        Ok(name) => name,
        Err(_) => [0; 32],
    }
}

/// Returns the number that a text has in decimal digits; of another text, 0.
pub(crate) fn number_in(text: &[u8]) -> u64
    ensures { (n : ℕ) → n < 2 ^ 64 → text.now ≡ decimal n → result ≡ n }
{
    match str::from_utf8(text) {
        Ok(digits) => match digits.parse::<u64>() {
            Ok(number) => number,
            Err(_) => 0,
        },
        Err(_) => 0,
    }
}

/// Returns the number of a segment or of segments that a text has in decimal digits; of another text, any.
fn index_in(text: &[u8]) -> u32
    ensures { (n : ℕ) → n < 2 ^ 32 → text.now ≡ decimal n → result ≡ n }
{
    let number = number_in(text);
    if number <= u32::MAX as u64 {
        number as u32
    } else {
        0
    }
}

/// Returns the finding whose word, with a colon, a text is; of another text, `Refused`.
fn finding_in(text: &[u8]) -> Finding
    ensures { (finding : Finding) → text.now ≡ finding_word finding ++ codes ":" → result ≡ finding }
{
    if text == b"holds:".as_slice() {
        Finding::Holds
    } else if text == b"fails:".as_slice() {
        Finding::Fails
    } else {
        Finding::Refused
    }
}
