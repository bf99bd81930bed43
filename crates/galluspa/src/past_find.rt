//! A search through a past for one hit, in the memory of a caller.
ghost use Rattle.std.specs.Prelude.{◌≡◌, ◌≢◌, ◌≤◌, ◌<◌, ◌⊎◌, ◌↔◌, IfErr, IfOk, None, OnOk, Some};
ghost use Rattle.oberon_past.specs.Past.{IsLonger};
ghost use Rattle.oberon_past.specs.Search.{Advances, IsRange};
ghost use Rattle.galluspa.specs.Conditions.{hit_of};
ghost use Rattle.galluspa.specs.Past.{Holds, HoldsBoth, IsClosed, Keeps};
ghost use Rattle.galluspa.specs.Searches.{HasFound, IsSearch, which_of};
ghost use Rattle.galluspa.specs.inner.Asking.{IsUnanswered};

use crate::conditions::{RawCondition, RawHit, conditions_of};
use crate::hits::raw_hit;
use crate::ranges::Unanswered;
use crate::refusal::{CLOSED, DONE, LATER, MORE, NOT_FOUND, OUT_OF_MEMORY, OUT_OF_RANGE};
use crate::sealed::RawPast;
use crate::searching::budget_of;
use oberon_past::{Found, Past, Which};
use std::alloc::Global;

/// Returns the hit that a caller wants.
fn which_of(wanted: u32) -> Which
    ensures { result ≡ which_of wanted }
{
    if wanted == 0 {
        return Which::First;
    }
    Which::Last
}

/// Searches a past for one hit, as `galluspa_past_find` does.
fn find_in(
    alloc: Global,
    past: &mut Past,
    from: u64,
    to: u64,
    conditions: &[RawCondition],
    wanted: u32,
    budget: u64,
) -> Result<Found, Unanswered>
    ensures found { IfOk result (λ found. HasFound conditions.now wanted from to found past.old) }
    ensures search { OnOk result (IsSearch conditions.now from to budget) }
    ensures range { OnOk result (IsRange past.old.run past.old.end from to) }
    ensures which { OnOk result (wanted ≤ 1) }
    ensures range_fault { IfErr result (λ refusal. refusal ≡ Unanswered.Range →
        (1 < wanted) ⊎ ¬ (IsSearch conditions.now from to budget × (past.old.run.start ≤ from))) }
    ensures refused { IfErr result (λ refusal. refusal ≢ Unanswered.Range →
        (wanted ≤ 1) × IsUnanswered past.old (IsSearch conditions.now from to budget) from to refusal) }
    ensures unmoved { IfErr result (λ refusal. refusal ≢ Unanswered.Memory → past.new ≡ past.old) }
    ensures longer { IsLonger past.old past.new }
    ensures advances { IfOk result (Advances past.old past.new (which_of wanted) from to) }
{
    if wanted > 1 {
        return Err(Unanswered::Range);
    }
    let budget = budget_of(past, from, to, conditions, budget)?;
    let conditions = conditions_of(alloc, conditions)?;
    let found = past.find(alloc, from, to, &conditions, which_of(wanted), budget)?;
    Ok(found)
}

/// Searches through a past for the first count, from `from` up to but not including `to`, at which a condition of a list holds if
/// `wanted` is 0, or for the last if it is 1. Returns 0 (`DONE`), and writes it to `hit` with the index of the first condition that
/// holds there; or 11 (`NOT_FOUND`) if there is none.
///
/// If the budget is spent, the result is 12 (`MORE`), and a count is written to `progress`: no condition holds between it and the end
/// of the range from which the search began. A call with it in place of `from` if `wanted` is 0, or in place of `to` if it is 1, goes
/// on from there, and its answer is that about the whole range. The past runs on and adds keyframes as it needs them.
///
/// Nothing else is written. The result is 13 (`CLOSED`) if no past is open; 1 (`OUT_OF_RANGE`) if `from` is before the first count or
/// after `to`, `wanted` is above 1, the budget is 0, there are more than 64 conditions, one is out of its range, or they are not joined
/// as they may be; else 14 (`LATER`) if `to` is after the end; and then the past stays as it is. It is 3 (`OUT_OF_MEMORY`) if all is in
/// range and memory ran out: then keyframes may have been added. The past stays open, of the same run.
#[unsafe(no_mangle)]
pub extern "C" fn galluspa_past_find(
    alloc: Global,
    past: &mut RawPast,
    from: u64,
    to: u64,
    conditions: &[RawCondition],
    wanted: u32,
    budget: u64,
    hit: &mut RawHit,
    progress: &mut u64,
) -> u8
    ensures found { result ≡ DONE →
        Holds (HasFound conditions.now wanted from to (Found.Done (Some (hit_of hit.new)))) past.old }
    ensures none { result ≡ NOT_FOUND → Holds (HasFound conditions.now wanted from to (Found.Done None)) past.old }
    ensures more { result ≡ MORE → Holds (HasFound conditions.now wanted from to (Found.More progress.new)) past.old }
    ensures advances { result ≡ MORE →
        HoldsBoth (λ old new. Advances old new (which_of wanted) from to (Found.More progress.new)) past.old past.new }
    ensures unchanged { result ≢ DONE → hit.new ≡ hit.old }
    ensures unprogressed { result ≢ MORE → progress.new ≡ progress.old }
    ensures closed { result ≡ CLOSED ↔ IsClosed past.old }
    ensures range { result ≡ OUT_OF_RANGE →
        (1 < wanted) ⊎ Holds (λ p. ¬ (IsSearch conditions.now from to budget × (p.run.start ≤ from))) past.old }
    ensures which { result ≢ CLOSED → result ≢ OUT_OF_RANGE → wanted ≤ 1 }
    ensures search { result ≢ CLOSED → result ≢ OUT_OF_RANGE →
        Holds (λ p. IsSearch conditions.now from to budget × (p.run.start ≤ from)) past.old }
    ensures later { result ≡ LATER → Holds (λ p. p.end < to) past.old }
    ensures inside { result ≢ CLOSED → result ≢ OUT_OF_RANGE → result ≢ LATER → Holds (λ p. to ≤ p.end) past.old }
    ensures longer { result ≢ CLOSED → HoldsBoth IsLonger past.old past.new }
    ensures unmoved { (result ≡ OUT_OF_RANGE) ⊎ (result ≡ LATER) → Keeps past.old past.new }
    ensures kept { result ≡ CLOSED → past.new ≡ past.old }
    ensures codes { (result ≤ OUT_OF_RANGE) ⊎ (result ≡ OUT_OF_MEMORY) ⊎ ((NOT_FOUND ≤ result) × (result ≤ LATER)) }
{
    let Some(mut here) = past.take(alloc) else {
        return CLOSED;
    };
    let found = find_in(alloc, &mut here, from, to, conditions, wanted, budget);
    past.put(here);
    match found {
        Ok(Found::Done(Some(found))) => {
            *hit = raw_hit(&found);
            DONE
        }
        Ok(Found::Done(None)) => NOT_FOUND,
        Ok(Found::More(at)) => {
            *progress = at;
            MORE
        }
        Ok(Found::OutOfRange(_)) => OUT_OF_RANGE,
        Err(Unanswered::Range) => OUT_OF_RANGE,
        Err(Unanswered::Later) => LATER,
        Err(Unanswered::Memory) => OUT_OF_MEMORY,
    }
}
