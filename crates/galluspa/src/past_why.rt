//! Where the value of a part comes from, asked of a past in the memory of a caller.
ghost use Rattle.std.specs.Prelude.{◌≡◌, ◌≢◌, ◌≤◌, ◌<◌, ◌⊎◌, ◌↔◌, IfErr, IfOk, OnOk};
ghost use Rattle.oberon_past.specs.Links.{AdvancesWhy};
ghost use Rattle.oberon_past.specs.Past.{IsLonger};
ghost use Rattle.oberon_past.specs.Search.{IsRange};
ghost use Rattle.galluspa.specs.Links.{HasLink, HasWhy, IsRawLink, IsWhyQuestion};
ghost use Rattle.galluspa.specs.Past.{Holds, HoldsBoth, IsClosed, Keeps};
ghost use Rattle.galluspa.specs.inner.Asking.{IsUnanswered};

use crate::link::{RawLink, raw_link};
use crate::part::{RawPart, part_of};
use crate::ranges::{Unanswered, budget_for};
use crate::refusal::{CLOSED, DONE, LATER, MORE, OUT_OF_MEMORY, OUT_OF_RANGE};
use crate::sealed::RawPast;
use oberon_past::{Past, Why};
use std::alloc::Global;

/// Finds where the value of a part comes from, as `galluspa_past_why` does. All numbers are tested before memory is asked for.
fn why_in(
    alloc: Global,
    past: &mut Past,
    part: &RawPart,
    before: u64,
    budget: u64,
) -> Result<Why, Unanswered>
    ensures why { IfOk result (λ why. HasWhy part.now before why past.old) }
    ensures question { OnOk result (IsWhyQuestion part.now budget) }
    ensures range { OnOk result (IsRange past.old.run past.old.end before before) }
    ensures refused { IfErr result (IsUnanswered past.old (IsWhyQuestion part.now budget) before before) }
    ensures unmoved { IfErr result (λ refusal. refusal ≢ Unanswered.Memory → past.new ≡ past.old) }
    ensures longer { IsLonger past.old past.new }
    ensures advances { IfOk result (AdvancesWhy past.old past.new before) }
{
    let Some(asked) = part_of(part) else {
        return Err(Unanswered::Range);
    };
    let budget = budget_for(past, before, before, budget)?;
    let why = past.why(alloc, asked, before, budget)?;
    Ok(why)
}

/// Finds where the value of a part before a count comes from: its last write from the first count on, the value that this gave it, and
/// the parts from which the instruction computed it. Returns 0 (`DONE`), and writes the link to `link`.
///
/// If the budget is spent, the result is 12 (`MORE`), and a count is written to `progress`: there is no write at it or later. A call with
/// it in place of `before` goes on from there, and its answer is that about `before`. The past runs on and adds keyframes as it needs
/// them.
///
/// Nothing else is written. The result is 13 (`CLOSED`) if no past is open; 1 (`OUT_OF_RANGE`) if `before` is before the first count, the
/// budget is 0, or a number of the part is out of its range; else 14 (`LATER`) if `before` is after the end; and then the past stays as
/// it is. It is 3 (`OUT_OF_MEMORY`) if all is in range and memory ran out: then keyframes may have been added. The past stays open, of
/// the same run.
#[unsafe(no_mangle)]
pub extern "C" fn galluspa_past_why(
    alloc: Global,
    past: &mut RawPast,
    part: &RawPart,
    before: u64,
    budget: u64,
    link: &mut RawLink,
    progress: &mut u64,
) -> u8
    ensures done { result ≡ DONE → Holds (HasLink part.now before link.new) past.old }
    ensures form { result ≡ DONE → IsRawLink link.new }
    ensures more { result ≡ MORE → Holds (HasWhy part.now before (Why.More progress.new)) past.old }
    ensures advances { result ≡ MORE →
        HoldsBoth (λ old new. (old.keyframes < new.keyframes) ⊎ (progress.new < before)) past.old past.new }
    ensures unwritten { result ≢ DONE → link.new ≡ link.old }
    ensures unprogressed { result ≢ MORE → progress.new ≡ progress.old }
    ensures closed { result ≡ CLOSED ↔ IsClosed past.old }
    ensures range { result ≡ OUT_OF_RANGE →
        Holds (λ p. ¬ (IsWhyQuestion part.now budget × (p.run.start ≤ before))) past.old }
    ensures question { result ≢ CLOSED → result ≢ OUT_OF_RANGE →
        Holds (λ p. IsWhyQuestion part.now budget × (p.run.start ≤ before)) past.old }
    ensures later { result ≡ LATER → Holds (λ p. p.end < before) past.old }
    ensures inside { result ≢ CLOSED → result ≢ OUT_OF_RANGE → result ≢ LATER → Holds (λ p. before ≤ p.end) past.old }
    ensures longer { result ≢ CLOSED → HoldsBoth IsLonger past.old past.new }
    ensures unmoved { (result ≡ OUT_OF_RANGE) ⊎ (result ≡ LATER) → Keeps past.old past.new }
    ensures kept { result ≡ CLOSED → past.new ≡ past.old }
    ensures codes { (result ≤ OUT_OF_RANGE) ⊎ (result ≡ OUT_OF_MEMORY) ⊎ ((MORE ≤ result) × (result ≤ LATER)) }
{
    let Some(mut here) = past.take(alloc) else {
        return CLOSED;
    };
    let why = why_in(alloc, &mut here, part, before, budget);
    past.put(here);
    match why {
        Ok(Why::Done(found)) => {
            *link = raw_link(&found);
            DONE
        }
        Ok(Why::More(at)) => {
            *progress = at;
            MORE
        }
        Ok(Why::OutOfRange(_)) => OUT_OF_RANGE,
        Err(Unanswered::Range) => OUT_OF_RANGE,
        Err(Unanswered::Later) => LATER,
        Err(Unanswered::Memory) => OUT_OF_MEMORY,
    }
}
