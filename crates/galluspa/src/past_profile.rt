//! A profile of a range of a past, added to the numbers of a caller.
ghost use Rattle.std.specs.Prelude.{◌≡◌, ◌≢◌, ◌≤◌, ◌<◌, ◌⊎◌, ◌↔◌, IfErr, IfOk, OnErr, OnOk, length};
ghost use Rattle.oberon_past.specs.Past.{IsLonger};
ghost use Rattle.oberon_past.specs.Profile.{AdvancesProfile, HasProfiled, IsProfiled};
ghost use Rattle.oberon_past.specs.Search.{IsRange};
ghost use Rattle.galluspa.specs.Past.{Holds, HoldsBoth, IsClosed, Keeps};
ghost use Rattle.galluspa.specs.Ranges.{IsProfileQuestion};
ghost use Rattle.galluspa.specs.inner.Asking.{IsUnanswered};

use crate::ranges::{Unanswered, budget_for};
use crate::refusal::{CLOSED, DONE, LATER, MORE, OUT_OF_MEMORY, OUT_OF_RANGE};
use crate::sealed::RawPast;
use oberon_past::{Past, Profiled};
use risc_pages::MEMORY_WORDS;
use std::alloc::Global;

/// Counts the instructions of a range of a past, as `galluspa_past_profile` does.
fn profile_in(
    alloc: Global,
    past: &mut Past,
    from: u64,
    to: u64,
    budget: u64,
    visits: &mut [u64],
    departures: &mut [u64],
) -> Result<Profiled, Unanswered>
    ensures profiled { IfOk result (IsProfiled past.old.run past.old.end from to
        (record { visits = visits.old; departures = departures.old })
        (record { visits = visits.new; departures = departures.new })) }
    ensures question { OnOk result (IsProfileQuestion from to budget visits.old departures.old) }
    ensures range { OnOk result (IsRange past.old.run past.old.end from to) }
    ensures refused { IfErr result
        (IsUnanswered past.old (IsProfileQuestion from to budget visits.old departures.old) from to) }
    ensures uncounted { OnErr result ((visits.new ≡ visits.old) × (departures.new ≡ departures.old)) }
    ensures unmoved { IfErr result (λ refusal. refusal ≢ Unanswered.Memory → past.new ≡ past.old) }
    ensures longer { IsLonger past.old past.new }
    ensures advances { IfOk result (AdvancesProfile past.old past.new from) }
{
    let count = MEMORY_WORDS as usize;
    if visits.len() != count || departures.len() != count {
        return Err(Unanswered::Range);
    }
    let budget = budget_for(past, from, to, budget)?;
    let profiled = past.profile(alloc, from, to, visits, departures, budget)?;
    Ok(profiled)
}

/// Counts how often the run of a past executes each word of memory, from the count `from` up to but not including `to`: adds to
/// `visits` how often its instruction is done, and to `departures` how often this leads elsewhere than to the next word. After
/// 2^64 - 1 a number begins again at 0. An instruction that stops the machine is done, and leads to no next word. Returns 0 (`DONE`),
/// and writes `to` to `from`.
///
/// If the budget is spent, the result is 12 (`MORE`): the range is counted up to the new `from`, and a call with it goes on from there.
/// The past runs on and adds keyframes as it needs them.
///
/// Otherwise nothing is written. The result is 13 (`CLOSED`) if no past is open; 1 (`OUT_OF_RANGE`) if `from` is before the first count
/// or after `to`, the budget is 0, or `visits` or `departures` is not of 262,144 numbers; else 14 (`LATER`) if `to` is after the end;
/// and 3 (`OUT_OF_MEMORY`) if all is in range and memory ran out. The past stays open, of the same run.
#[unsafe(no_mangle)]
pub extern "C" fn galluspa_past_profile(
    alloc: Global,
    past: &mut RawPast,
    from: &mut u64,
    to: u64,
    budget: u64,
    visits: &mut [u64],
    departures: &mut [u64],
) -> u8
    ensures counted { (result ≡ DONE) ⊎ (result ≡ MORE) → Holds (λ p. HasProfiled p.run from.old from.new
        (record { visits = visits.old; departures = departures.old })
        (record { visits = visits.new; departures = departures.new })) past.old }
    ensures whole { result ≡ DONE → from.new ≡ to }
    ensures part { result ≡ MORE → (from.old ≤ from.new) × (from.new < to) }
    ensures advances { result ≡ MORE →
        HoldsBoth (λ old new. (old.keyframes < new.keyframes) ⊎ (from.old < from.new)) past.old past.new }
    ensures unchanged { result ≢ DONE → result ≢ MORE →
        (visits.new ≡ visits.old) × (departures.new ≡ departures.old) × (from.new ≡ from.old) }
    ensures closed { result ≡ CLOSED ↔ IsClosed past.old }
    ensures range { result ≡ OUT_OF_RANGE →
        Holds (λ p. ¬ (IsProfileQuestion from.old to budget visits.old departures.old × (p.run.start ≤ from.old))) past.old }
    ensures question { result ≢ CLOSED → result ≢ OUT_OF_RANGE →
        Holds (λ p. IsProfileQuestion from.old to budget visits.old departures.old × (p.run.start ≤ from.old)) past.old }
    ensures later { result ≡ LATER → Holds (λ p. p.end < to) past.old }
    ensures inside { result ≢ CLOSED → result ≢ OUT_OF_RANGE → result ≢ LATER → Holds (λ p. to ≤ p.end) past.old }
    ensures longer { result ≢ CLOSED → HoldsBoth IsLonger past.old past.new }
    ensures unmoved { (result ≡ OUT_OF_RANGE) ⊎ (result ≡ LATER) → Keeps past.old past.new }
    ensures kept { result ≡ CLOSED → past.new ≡ past.old }
    ensures codes { (result ≤ OUT_OF_RANGE) ⊎ (result ≡ OUT_OF_MEMORY) ⊎ ((MORE ≤ result) × (result ≤ LATER)) }
{
    let Some(mut here) = past.take(alloc) else {
        return CLOSED;
    };
    let profiled = profile_in(alloc, &mut here, *from, to, budget, visits, departures);
    past.put(here);
    match profiled {
        Ok(Profiled::Done) => {
            *from = to;
            DONE
        }
        Ok(Profiled::More(next)) => {
            *from = next;
            MORE
        }
        Ok(Profiled::OutOfRange(_)) => OUT_OF_RANGE,
        Err(Unanswered::Range) => OUT_OF_RANGE,
        Err(Unanswered::Later) => LATER,
        Err(Unanswered::Memory) => OUT_OF_MEMORY,
    }
}
