//! Lists that JSON arrays are read into. A list is dropped at the first item of a wrong shape, and the items after it are passed
//! over.

ghost use Rattle.std.specs.Prelude.{◌≡◌, IfErr, IfOk, option_map};
ghost use Rattle.oberon_session.specs.Shape.{each, list_of, number_of, numbers_of};
ghost use Rattle.oberon_session.specs.inner.Found.{with_item};
ghost use Rattle.oberon_session.specs.inner.Taken.{Takes, all_items, one_value};

use crate::SessionFault;
use crate::head::{Head, take_head};
use crate::value::{number, pass_other};
use json::Reader;
use std::alloc::Global;

/// Returns a list with one more item, if both are there.
pub fn with_item<T: Drop>(
    found: Option<Vec<T>>,
    item: Option<T>,
) -> Result<Option<Vec<T>>, SessionFault>
    ensures ok { IfOk result (λ all. option_map (λ items. items.items) all
        ≡ with_item (option_map (λ items. items.items) found) item) }
    ensures err { IfErr result (λ fault. fault ≡ SessionFault.Memory) }
{
    let (Some(mut items), Some(item)) = (found, item) else {
        return Ok(None);
    };
    items.push(item)?;
    Ok(Some(items))
}

/// Takes a value, and returns its numbers if it is an array of whole numbers below 2^64.
pub fn numbers(
    alloc: Global,
    reader: &mut Reader<'_>,
    depth: usize,
) -> Result<Option<Vec<u64>>, SessionFault>
    ensures { Takes (one_value depth reader.old) reader.new
        (λ json found. option_map (λ numbers. numbers.items) found ≡ numbers_of json) result }
{
    match take_head(reader, depth)? {
        Head::Array(inside) => numbers_inside(alloc, reader, inside),
        head => pass_other(reader, head),
    }
}

/// Takes the items of an array, and its end. Returns them if each is a whole number below 2^64.
fn numbers_inside(
    alloc: Global,
    reader: &mut Reader<'_>,
    depth: usize,
) -> Result<Option<Vec<u64>>, SessionFault>
    ensures { Takes (all_items depth reader.old) reader.new
        (λ items found. option_map (λ numbers. numbers.items) found ≡ each number_of (list_of items)) result }
{
    let mut found = Some(Vec::new(alloc));
    'items: while !reader.take_end_array() {
        let item = number(reader, depth)?;
        found = with_item(found, item)?;
    }
    Ok(found)
}
