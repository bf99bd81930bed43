//! The last write of a part, asked of a past in the memory of a caller.
ghost use Rattle.std.specs.Prelude.{◌≡◌, ◌≢◌, ◌≤◌, ◌<◌, ◌⊎◌, ◌↔◌, IfErr, IfOk, None, OnOk, Some};
ghost use Rattle.oberon_past.specs.Past.{IsLonger};
ghost use Rattle.oberon_past.specs.Search.{IsRange};
ghost use Rattle.oberon_past.specs.Writes.{AdvancesWrite};
ghost use Rattle.galluspa.specs.Past.{Holds, HoldsBoth, IsClosed, Keeps};
ghost use Rattle.galluspa.specs.Writes.{HasWritten, IsWrite, IsWriteQuestion, write_kind, write_of};
ghost use Rattle.galluspa.specs.inner.Asking.{IsUnanswered};

use crate::part::{RawPart, RawWrite, part_of, raw_write};
use crate::ranges::{Unanswered, budget_for};
use crate::refusal::{CLOSED, DONE, LATER, MORE, NOT_FOUND, OUT_OF_MEMORY, OUT_OF_RANGE};
use crate::sealed::RawPast;
use oberon_past::{LastWrite, Past, WriteKind};
use std::alloc::Global;

/// Returns which writes a caller looks for.
fn write_kind(changing: u32) -> WriteKind
    ensures { result ≡ write_kind changing }
{
    if changing == 0 {
        return WriteKind::Any;
    }
    WriteKind::Changing
}

/// Finds the last write of a part, as `galluspa_past_write` does. All numbers are tested before memory is asked for.
fn write_in(
    alloc: Global,
    past: &mut Past,
    part: &RawPart,
    changing: u32,
    before: u64,
    budget: u64,
) -> Result<LastWrite, Unanswered>
    ensures written { IfOk result (λ written. HasWritten part.now changing before written past.old) }
    ensures question { OnOk result (IsWriteQuestion part.now changing budget) }
    ensures range { OnOk result (IsRange past.old.run past.old.end before before) }
    ensures refused { IfErr result (IsUnanswered past.old (IsWriteQuestion part.now changing budget) before before) }
    ensures unmoved { IfErr result (λ refusal. refusal ≢ Unanswered.Memory → past.new ≡ past.old) }
    ensures longer { IsLonger past.old past.new }
    ensures advances { IfOk result (AdvancesWrite past.old past.new before) }
{
    if changing > 1 {
        return Err(Unanswered::Range);
    }
    let Some(asked) = part_of(part) else {
        return Err(Unanswered::Range);
    };
    let budget = budget_for(past, before, before, budget)?;
    let written = past.write(alloc, asked, write_kind(changing), before, budget)?;
    Ok(written)
}

/// Finds the last write of a part before a count, from the first count on, if `changing` is 0, and the last one that changes the part
/// if it is 1. Returns 0 (`DONE`), and writes the write to `write`; or 11 (`NOT_FOUND`) if there is none, so that the part is as it was
/// at the first count.
///
/// If the budget is spent, the result is 12 (`MORE`), and a count is written to `progress`: there is no such write at it or later. A
/// call with it in place of `before` goes on from there, and its answer is that about `before`. The past runs on and adds keyframes as it
/// needs them.
///
/// Nothing else is written. The result is 13 (`CLOSED`) if no past is open; 1 (`OUT_OF_RANGE`) if `before` is before the first count,
/// `changing` is above 1, the budget is 0, or a number of the part is out of its range; else 14 (`LATER`) if `before` is after the end;
/// and then the past stays as it is. It is 3 (`OUT_OF_MEMORY`) if all is in range and memory ran out: then keyframes may have been added.
/// The past stays open, of the same run.
#[unsafe(no_mangle)]
pub extern "C" fn galluspa_past_write(
    alloc: Global,
    past: &mut RawPast,
    part: &RawPart,
    changing: u32,
    before: u64,
    budget: u64,
    write: &mut RawWrite,
    progress: &mut u64,
) -> u8
    ensures found { result ≡ DONE →
        Holds (HasWritten part.now changing before (LastWrite.Done (Some (write_of write.new)))) past.old }
    ensures form { result ≡ DONE → IsWrite write.new }
    ensures none { result ≡ NOT_FOUND → Holds (HasWritten part.now changing before (LastWrite.Done None)) past.old }
    ensures more { result ≡ MORE → Holds (HasWritten part.now changing before (LastWrite.More progress.new)) past.old }
    ensures advances { result ≡ MORE →
        HoldsBoth (λ old new. (old.keyframes < new.keyframes) ⊎ (progress.new < before)) past.old past.new }
    ensures unwritten { result ≢ DONE → write.new ≡ write.old }
    ensures unprogressed { result ≢ MORE → progress.new ≡ progress.old }
    ensures closed { result ≡ CLOSED ↔ IsClosed past.old }
    ensures range { result ≡ OUT_OF_RANGE →
        Holds (λ p. ¬ (IsWriteQuestion part.now changing budget × (p.run.start ≤ before))) past.old }
    ensures question { result ≢ CLOSED → result ≢ OUT_OF_RANGE →
        Holds (λ p. IsWriteQuestion part.now changing budget × (p.run.start ≤ before)) past.old }
    ensures later { result ≡ LATER → Holds (λ p. p.end < before) past.old }
    ensures inside { result ≢ CLOSED → result ≢ OUT_OF_RANGE → result ≢ LATER → Holds (λ p. before ≤ p.end) past.old }
    ensures longer { result ≢ CLOSED → HoldsBoth IsLonger past.old past.new }
    ensures unmoved { (result ≡ OUT_OF_RANGE) ⊎ (result ≡ LATER) → Keeps past.old past.new }
    ensures kept { result ≡ CLOSED → past.new ≡ past.old }
    ensures codes { (result ≤ OUT_OF_RANGE) ⊎ (result ≡ OUT_OF_MEMORY) ⊎ ((NOT_FOUND ≤ result) × (result ≤ LATER)) }
{
    let Some(mut here) = past.take(alloc) else {
        return CLOSED;
    };
    let written = write_in(alloc, &mut here, part, changing, before, budget);
    past.put(here);
    match written {
        Ok(LastWrite::Done(Some(found))) => {
            *write = raw_write(&found);
            DONE
        }
        Ok(LastWrite::Done(None)) => NOT_FOUND,
        Ok(LastWrite::More(at)) => {
            *progress = at;
            MORE
        }
        Ok(LastWrite::OutOfRange(_)) => OUT_OF_RANGE,
        Err(Unanswered::Range) => OUT_OF_RANGE,
        Err(Unanswered::Later) => LATER,
        Err(Unanswered::Memory) => OUT_OF_MEMORY,
    }
}
