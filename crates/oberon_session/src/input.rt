//! Inputs of a session, as its JSON has them.

ghost use Rattle.std.specs.Prelude.{◌≡◌, map, option_map};
ghost use Rattle.oberon_session.specs.Draft.{input_of, inputs_of, kind_of, triple_of};
ghost use Rattle.oberon_session.specs.Shape.{each, list_of};
ghost use Rattle.oberon_session.specs.inner.Drafts.{input_view};
ghost use Rattle.oberon_session.specs.inner.Found.{input_in};
ghost use Rattle.oberon_session.specs.inner.Taken.{Takes, all_items, one_value};

use crate::SessionFault;
use crate::draft::InputDraft;
use crate::head::{Head, take_head};
use crate::list::with_item;
use crate::value::{number, pass_items, pass_other, text};
use json::Reader;
use std::alloc::Global;

/// Takes a value, and returns its inputs if it is an array of inputs.
pub fn inputs(
    alloc: Global,
    reader: &mut Reader<'_>,
    depth: usize,
) -> Result<Option<Vec<InputDraft>>, SessionFault>
    ensures { Takes (one_value depth reader.old) reader.new
        (λ json found. option_map (λ inputs. map input_view inputs.items) found ≡ inputs_of json) result }
{
    match take_head(reader, depth)? {
        Head::Array(inside) => inputs_inside(alloc, reader, inside),
        head => pass_other(reader, head),
    }
}

/// Takes the items of an array, and its end. Returns the inputs that they are, if each is one.
fn inputs_inside(
    alloc: Global,
    reader: &mut Reader<'_>,
    depth: usize,
) -> Result<Option<Vec<InputDraft>>, SessionFault>
    ensures { Takes (all_items depth reader.old) reader.new
        (λ items found. option_map (λ inputs. map input_view inputs.items) found ≡ each input_of (list_of items)) result }
{
    let mut found = Some(Vec::new(alloc));
    'items: while !reader.take_end_array() {
        let item = input(reader, depth)?;
        found = with_item(found, item)?;
    }
    Ok(found)
}

/// Takes a value, and returns it if it is an input: an array of its count, the name of its kind, and its value.
fn input(reader: &mut Reader<'_>, depth: usize) -> Result<Option<InputDraft>, SessionFault>
    ensures { Takes (one_value depth reader.old) reader.new (λ json found. option_map input_view found ≡ input_of json) result }
{
    match take_head(reader, depth)? {
        Head::Array(inside) => input_inside(reader, inside),
        head => pass_other(reader, head),
    }
}

/// Takes the items of an array, and its end. Returns the input that they are, if they are three and of the right types.
fn input_inside(reader: &mut Reader<'_>, depth: usize) -> Result<Option<InputDraft>, SessionFault>
    ensures { Takes (all_items depth reader.old) reader.new
        (λ items found. option_map input_view found ≡ triple_of (list_of items)) result }
{
    if reader.take_end_array() {
        return Ok(None);
    }
    let count = number(reader, depth)?;
    if reader.take_end_array() {
        return Ok(None);
    }
    let kind = text(reader, depth)?;
    if reader.take_end_array() {
        return Ok(None);
    }
    let value = number(reader, depth)?;
    if reader.take_end_array() {
        return Ok(input_in(count, kind, value));
    }
    pass_items(reader, depth)?;
    Ok(None)
}

/// Returns the input of a count, the name of a kind and a value, if each is there and the kind has this name.
fn input_in(count: Option<u64>, kind: Option<&str>, value: Option<u64>) -> Option<InputDraft>
    ensures { option_map input_view result ≡ input_in count (option_map (λ name. name.now) kind.entry) value }
{
    Some(InputDraft {
        count: count?,
        kind: kind_number(kind?)?,
        value: value?,
    })
}

/// Returns the number of the kind of input that a session calls by this name, or none for any other name.
fn kind_number(name: &str) -> Option<u8>
    ensures { result ≡ kind_of name.now }
{
    match name {
        "timer" => Some(1),
        "switches" => Some(2),
        "mouse" => Some(3),
        "key" => Some(4),
        "serial" => Some(5),
        "disk" => Some(6),
        _ => None,
    }
}
