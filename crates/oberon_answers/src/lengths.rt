//! That the line of a verdict or of a fault has fewer than 256 bytes, so that it fits into a caller's buffer of that size.
//!
//! These functions do nothing: their contracts state what follows from the types of the numbers, each of which has at most 20 digits.
ghost use Rattle.std.specs.Prelude.{◌≤◌, ◌<◌, length};
ghost use Rattle.std.specs.Fmt.{decimal};
ghost use Rattle.oberon_format.specs.Line.{fault_line};
ghost use Rattle.oberon_check.specs.Line.{line_of, part_name};

use oberon_check::{Part, Verdict};
use oberon_format::Fault;

/// A number has at most 20 digits.
#[tactic(auto, using(crate::proofs::LineLemmas::number_short))]
fn digits_fit(number: u64)
    ensures { length (decimal number) ≤ 20 }
{}

/// The name of a part has at most 25 letters and digits.
fn name_fits(part: &Part)
    ensures { length (part_name part.now) ≤ 25 }
{
    match part {
        Part::R(number) => digits_fit(*number as u64),
        Part::Page(slot) => digits_fit(*slot as u64),
        _ => {}
    }
}

/// The line of a fault has fewer than 256 bytes.
pub fn refusal_fits(fault: &Fault)
    ensures { length (fault_line fault.now) < 256 }
{
    match fault {
        Fault::Short(byte) => digits_fit(*byte),
        Fault::Magic(byte) => digits_fit(*byte),
        Fault::Version(byte) => digits_fit(*byte),
        Fault::Limit(byte) => digits_fit(*byte),
        Fault::Event(byte) => digits_fit(*byte),
        Fault::Checkpoint(byte) => digits_fit(*byte),
        Fault::Page(byte) => digits_fit(*byte),
        Fault::Trailing(byte) => digits_fit(*byte),
        Fault::Memory => {}
    }
}

/// The line of a verdict has fewer than 256 bytes.
pub fn verdict_fits(verdict: &Verdict)
    ensures { length (line_of verdict.now) < 256 }
{
    match verdict {
        Verdict::Accepted { checkpoints, steps } => {
            digits_fit(*checkpoints as u64);
            digits_fit(*steps);
        }
        Verdict::FalseAt {
            checkpoint,
            count,
            part,
        } => {
            digits_fit(*checkpoint as u64);
            digits_fit(*count);
            name_fits(part);
        }
    }
}
