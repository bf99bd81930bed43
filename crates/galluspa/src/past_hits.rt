//! A search through a past for all hits, in the memory of a caller.
ghost use Rattle.std.specs.Prelude.{◌≡◌, ◌≢◌, ◌≤◌, ◌<◌, ◌⊎◌, ◌↔◌, IfErr, IfOk, OnOk, drop, length, map, take};
ghost use Rattle.oberon_past.specs.Past.{IsLonger};
ghost use Rattle.oberon_past.specs.Search.{AdvancesAll, IsRange};
ghost use Rattle.galluspa.specs.Conditions.{hit_of};
ghost use Rattle.galluspa.specs.Past.{Holds, HoldsBoth, IsClosed, Keeps};
ghost use Rattle.galluspa.specs.Searches.{HaveFound, HaveWritten, IsSearch};
ghost use Rattle.galluspa.specs.inner.Asking.{IsUnanswered};

use crate::conditions::{RawCondition, RawHit, conditions_of};
use crate::hits::write_hits;
use crate::ranges::Unanswered;
use crate::refusal::{CLOSED, DONE, LATER, MORE, OUT_OF_MEMORY, OUT_OF_RANGE};
use crate::sealed::RawPast;
use crate::searching::budget_of;
use oberon_past::{AllFound, Past};
use risc_search::Hits;
use std::alloc::Global;

/// Searches a past for all hits, as `galluspa_past_hits` does.
fn hits_in(
    alloc: Global,
    past: &mut Past,
    from: u64,
    to: u64,
    conditions: &[RawCondition],
    budget: u64,
    room: usize,
) -> Result<AllFound, Unanswered>
    ensures found { IfOk result (λ found. HaveFound conditions.now from to room found past.old) }
    ensures search { OnOk result (IsSearch conditions.now from to budget) }
    ensures range { OnOk result (IsRange past.old.run past.old.end from to) }
    ensures some { OnOk result (0 < room) }
    ensures range_fault { IfErr result (λ refusal. refusal ≡ Unanswered.Range →
        (room ≡ 0) ⊎ ¬ (IsSearch conditions.now from to budget × (past.old.run.start ≤ from))) }
    ensures refused { IfErr result (λ refusal. refusal ≢ Unanswered.Range →
        (0 < room) × IsUnanswered past.old (IsSearch conditions.now from to budget) from to refusal) }
    ensures unmoved { IfErr result (λ refusal. refusal ≢ Unanswered.Memory → past.new ≡ past.old) }
    ensures longer { IsLonger past.old past.new }
    ensures advances { IfOk result (AdvancesAll past.old past.new from) }
{
    if room == 0 {
        return Err(Unanswered::Range);
    }
    let budget = budget_of(past, from, to, conditions, budget)?;
    let conditions = conditions_of(alloc, conditions)?;
    let found = past.hits(alloc, from, to, &conditions, room, budget)?;
    Ok(found)
}

/// Writes hits to the front of `out`, which has room for them, their number, and the count to go on from.
fn write_found(found: &Hits, from: &mut u64, out: &mut [RawHit], count: &mut usize)
    requires { length found.now.list.items ≤ length out.old }
    ensures hits { map hit_of (take count.new out.new) ≡ found.now.list.items }
    ensures room { count.new ≤ length out.old }
    ensures rest { drop count.new out.new ≡ drop count.new out.old }
    ensures next { from.new ≡ found.now.next }
{
    write_hits(&found.list, out);
    *count = found.list.len();
    *from = found.next;
}

/// Searches through a past for all counts, from `from` up to but not including `to`, at which a condition of a list holds. Returns 0
/// (`DONE`), writes them in their order to the front of `hits`, each with the index of the first condition that holds there, and their
/// number to `hits_count`; and to `from` the count `to`, or, if there is no more room in `hits`, the count after the last hit.
///
/// If the budget is spent, the result is 12 (`MORE`), and the same is written, with the hits before the new `from`. After either, a call
/// with the new `from` finds the hits after these.
///
/// Otherwise nothing is written. The results are those of `galluspa_past_find`, without `NOT_FOUND`; it is 1 (`OUT_OF_RANGE`) if `hits`
/// is empty, too. The past stays open, of the same run.
#[unsafe(no_mangle)]
pub extern "C" fn galluspa_past_hits(
    alloc: Global,
    past: &mut RawPast,
    from: &mut u64,
    to: u64,
    conditions: &[RawCondition],
    budget: u64,
    hits: &mut [RawHit],
    hits_count: &mut usize,
) -> u8
    ensures done { result ≡ DONE →
        Holds (HaveWritten conditions.now from.old to (length hits.old) (λ h. AllFound.Done h) (map hit_of (take hits_count.new hits.new))
        from.new) past.old }
    ensures more { result ≡ MORE →
        Holds (HaveWritten conditions.now from.old to (length hits.old) (λ h. AllFound.More h) (map hit_of (take hits_count.new hits.new))
        from.new) past.old }
    ensures advances { result ≡ MORE →
        HoldsBoth (λ old new. (old.keyframes < new.keyframes) ⊎ (from.old < from.new)) past.old past.new }
    ensures room { (result ≡ DONE) ⊎ (result ≡ MORE) → hits_count.new ≤ length hits.old }
    ensures rest { drop hits_count.new hits.new ≡ drop hits_count.new hits.old }
    ensures unchanged { result ≢ DONE → result ≢ MORE →
        (hits.new ≡ hits.old) × (hits_count.new ≡ hits_count.old) × (from.new ≡ from.old) }
    ensures closed { result ≡ CLOSED ↔ IsClosed past.old }
    ensures range { result ≡ OUT_OF_RANGE →
        (length hits.old ≡ 0) ⊎ Holds (λ p. ¬ (IsSearch conditions.now from.old to budget × (p.run.start ≤ from.old))) past.old }
    ensures some { result ≢ CLOSED → result ≢ OUT_OF_RANGE → 0 < length hits.old }
    ensures search { result ≢ CLOSED → result ≢ OUT_OF_RANGE →
        Holds (λ p. IsSearch conditions.now from.old to budget × (p.run.start ≤ from.old)) past.old }
    ensures later { result ≡ LATER → Holds (λ p. p.end < to) past.old }
    ensures inside { result ≢ CLOSED → result ≢ OUT_OF_RANGE → result ≢ LATER → Holds (λ p. to ≤ p.end) past.old }
    ensures longer { result ≢ CLOSED → HoldsBoth IsLonger past.old past.new }
    ensures unmoved { (result ≡ OUT_OF_RANGE) ⊎ (result ≡ LATER) → Keeps past.old past.new }
    ensures kept { result ≡ CLOSED → past.new ≡ past.old }
    ensures codes { (result ≤ OUT_OF_RANGE) ⊎ (result ≡ OUT_OF_MEMORY) ⊎ ((MORE ≤ result) × (result ≤ LATER)) }
{
    let Some(mut here) = past.take(alloc) else {
        return CLOSED;
    };
    let found = hits_in(alloc, &mut here, *from, to, conditions, budget, hits.len());
    past.put(here);
    match found {
        Ok(AllFound::Done(found)) => {
            write_found(&found, from, hits, hits_count);
            DONE
        }
        Ok(AllFound::More(found)) => {
            write_found(&found, from, hits, hits_count);
            MORE
        }
        Ok(AllFound::OutOfRange(_)) => OUT_OF_RANGE,
        Err(Unanswered::Range) => OUT_OF_RANGE,
        Err(Unanswered::Later) => LATER,
        Err(Unanswered::Memory) => OUT_OF_MEMORY,
    }
}
