//! The output line of a fault.

ghost use Rattle.std.specs.Prelude.{◌≢◌, ◌≡◌, IfOk};
ghost use Rattle.oberon_format.specs.Line.{fault_line, refused_line};

use crate::fault::Fault;
use std::alloc::{AllocError, Global};

/// Returns the line of a fault: `refused f name at byte o` and a line feed, the numbers in decimal.
///
/// The names are `short`, `magic`, `version`, `limit`, `event`, `checkpoint`, `page` and `trailing`. An allocation failure has no
/// line.
pub fn refusal(alloc: Global, f: &Fault) -> Result<Vec<u8>, AllocError>
    requires { f.now ≢ Fault.Memory }
    ensures { IfOk result (λ line. line.items ≡ fault_line f.now) }
{
    match *f {
        Fault::Short(byte) => named_line(alloc, 1, "short", byte),
        Fault::Magic(byte) => named_line(alloc, 2, "magic", byte),
        Fault::Version(byte) => named_line(alloc, 3, "version", byte),
        Fault::Limit(byte) => named_line(alloc, 4, "limit", byte),
        Fault::Event(byte) => named_line(alloc, 5, "event", byte),
        Fault::Checkpoint(byte) => named_line(alloc, 6, "checkpoint", byte),
        Fault::Page(byte) => named_line(alloc, 7, "page", byte),
        Fault::Trailing(byte) => named_line(alloc, 8, "trailing", byte),
        Fault::Memory => unreachable!(),
    }
}

fn named_line(alloc: Global, number: u8, name: &str, byte: u64) -> Result<Vec<u8>, AllocError>
    ensures { IfOk result (λ line. line.items ≡ refused_line number name.now byte) }
{
    let line = format!(in alloc; "refused {number} {name} at byte {byte}\n")?;
    Ok(line.into_bytes())
}
