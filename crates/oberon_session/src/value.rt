//! Readers of JSON values that don't build them. Each takes one value from the tokens of a text, whatever its kind is, and refuses
//! exactly if there is no such value. So a session of a wrong shape costs no more memory than one of the right shape.

ghost use Rattle.std.specs.Prelude.{◌≡◌, IfErr, IfOk, List, None, Some, ℕ, ⊤, option_map};
ghost use Rattle.json.specs.Json.{read_key};
ghost use Rattle.json.specs.Token.{Token};
ghost use Rattle.serde_json.specs.Data.{no_members};
ghost use Rattle.oberon_session.specs.Shape.{number_of, text_of};
ghost use Rattle.oberon_session.specs.inner.Taken.{HasHead, IsAfterHead, Takes, all_items, all_members, one_value};

use crate::SessionFault;
use crate::head::{Head, take_head};
use json::Reader;

/// Takes a value, and drops it.
#[cycle(pass)]
pub fn pass(reader: &mut Reader<'_>, depth: usize) -> Result<(), SessionFault>
    ensures { Takes (one_value depth reader.old) reader.new (λ _ _. ⊤) result }
{
    let head = take_head(reader, depth)?;
    finish(reader, head)
}

/// Takes what comes after the head of a value.
#[cycle(pass)]
fn finish(reader: &mut Reader<'_>, head: Head<'_>) -> Result<(), SessionFault>
    ensures { (depth : ℕ) (ts : List Token) → IsAfterHead depth ts reader.old head.entry
        → Takes (one_value depth ts) reader.new (λ json _. HasHead json head.entry) result }
{
    match head {
        Head::Object(inside) => pass_members(reader, inside),
        Head::Array(inside) => pass_items(reader, inside),
        Head::Text(_) | Head::Number(_) | Head::Other => Ok(()),
    }
}

/// Takes what comes after the head of a value that is not wanted, and returns none in its place.
pub fn pass_other<T>(reader: &mut Reader<'_>, head: Head<'_>) -> Result<Option<T>, SessionFault>
    ensures { (depth : ℕ) (ts : List Token) → IsAfterHead depth ts reader.old head.entry
        → Takes (one_value depth ts) reader.new (λ json found. HasHead json head.entry × (found ≡ None)) result }
{
    finish(reader, head)?;
    Ok(None)
}

/// Takes the items of an array, and its end.
#[cycle(pass)]
pub fn pass_items(reader: &mut Reader<'_>, depth: usize) -> Result<(), SessionFault>
    ensures { Takes (all_items depth reader.old) reader.new (λ _ _. ⊤) result }
{
    'items: while !reader.take_end_array() {
        pass(reader, depth)?;
    }
    Ok(())
}

/// Takes the members of an object, and its end.
#[cycle(pass)]
fn pass_members(reader: &mut Reader<'_>, depth: usize) -> Result<(), SessionFault>
    ensures { Takes (all_members depth no_members reader.old) reader.new (λ _ _. ⊤) result }
{
    'members: while let Some(_) = next_key(reader)? {
        pass(reader, depth)?;
    }
    Ok(())
}

/// Takes a key, or the end of the object.
pub fn next_key<'a>(reader: &mut Reader<'a>) -> Result<Option<&'a str>, SessionFault>
    ensures ok { IfOk result (λ key. read_key reader.old ≡ Some (option_map (λ name. name.now) key, reader.new)) }
    ensures err { IfErr result (λ fault. (fault ≡ SessionFault.Json) × (read_key reader.old ≡ None)) }
{
    match reader.next_key() {
        Ok(key) => Ok(key),
        Err(_) => Err(SessionFault::Json),
    }
}

/// Takes a value, and returns it if it is a whole number below 2^64.
pub fn number(reader: &mut Reader<'_>, depth: usize) -> Result<Option<u64>, SessionFault>
    ensures { Takes (one_value depth reader.old) reader.new (λ json found. found ≡ number_of json) result }
{
    match take_head(reader, depth)? {
        Head::Number(n) => Ok(n),
        head => pass_other(reader, head),
    }
}

/// Takes a value, and returns it if it is a string.
pub fn text<'a>(reader: &mut Reader<'a>, depth: usize) -> Result<Option<&'a str>, SessionFault>
    ensures { Takes (one_value depth reader.old) reader.new
        (λ json found. option_map (λ text. text.now) found ≡ text_of json) result }
{
    match take_head(reader, depth)? {
        Head::Text(text) => Ok(Some(text)),
        head => pass_other(reader, head),
    }
}
