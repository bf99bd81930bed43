//! The calls of a range of a past, in the memory of a caller.
ghost use Rattle.std.specs.Prelude.{◌≡◌, ◌≢◌, ◌≤◌, ◌<◌, ◌⊎◌, ◌↔◌, IfErr, IfOk, OnOk, drop, length, map, take};
ghost use Rattle.risc_model.specs.declared.call.Call.{Call};
ghost use Rattle.oberon_past.specs.Calls.{AdvancesCalls};
ghost use Rattle.oberon_past.specs.Past.{IsLonger};
ghost use Rattle.oberon_past.specs.Search.{IsRange};
ghost use Rattle.galluspa.specs.Calls.{AreLeftOpen, raw_turn};
ghost use Rattle.galluspa.specs.Past.{Holds, HoldsBoth, IsClosed, Keeps};
ghost use Rattle.galluspa.specs.Ranges.{HasCalls, IsCallsQuestion};
ghost use Rattle.galluspa.specs.inner.Asking.{IsUnanswered};
ghost use Rattle.galluspa.specs.inner.Following.{AreHeld, IsCalledFrom};

use crate::calls::{RawTurn, are_open, write_log};
use crate::ranges::{Unanswered, budget_for};
use crate::refusal::{CLOSED, DONE, LATER, MORE, OUT_OF_MEMORY, OUT_OF_RANGE};
use crate::sealed::RawPast;
use oberon_past::{Called, Calls, Past};
use risc_machine::CallLog;
use risc_model::Call;
use std::alloc::Global;

/// Follows the calls of a range of a past, as `galluspa_past_calls` does.
fn calls_in(
    alloc: Global,
    past: &mut Past,
    from: u64,
    to: u64,
    limit: u32,
    budget: u64,
    calls: &[Call],
    count: usize,
    room: usize,
) -> Result<Called, Unanswered>
    ensures called { IfOk result
        (IsCalledFrom past.old.run past.old.end limit from to (take count calls.now) room (length calls.now)) }
    ensures held { IfOk result (AreHeld limit room (length calls.now)) }
    ensures question { OnOk result (IsCallsQuestion from to limit budget calls.now count room) }
    ensures range { OnOk result (IsRange past.old.run past.old.end from to) }
    ensures refused { IfErr result
        (IsUnanswered past.old (IsCallsQuestion from to limit budget calls.now count room) from to) }
    ensures unmoved { IfErr result (λ refusal. refusal ≢ Unanswered.Memory → past.new ≡ past.old) }
    ensures longer { IsLonger past.old past.new }
    ensures advances { IfOk result (AdvancesCalls past.old past.new from) }
{
    if count >= calls.len() || room == 0 {
        return Err(Unanswered::Range);
    }
    let present = &calls[..count];
    if !are_open(present, limit, from) {
        return Err(Unanswered::Range);
    }
    let budget = budget_for(past, from, to, budget)?;
    let log = CallLog::new(alloc, present, limit, calls.len(), room)?;
    let called = past.calls(alloc, from, to, log, budget)?;
    Ok(called)
}

/// Writes the calls that are open and the turns to the front of two lists, which have room for them, their numbers, and the count to go
/// on from.
fn write_followed(
    followed: &Calls,
    from: &mut u64,
    calls: &mut [Call],
    calls_count: &mut usize,
    turns: &mut [RawTurn],
    turns_count: &mut usize,
)
    requires calls { length followed.now.log.calls.items ≤ length calls.old }
    requires turns { length followed.now.log.turns.items ≤ length turns.old }
    ensures calls { take calls_count.new calls.new ≡ followed.now.log.calls.items }
    ensures turns { take turns_count.new turns.new ≡ map raw_turn followed.now.log.turns.items }
    ensures calls_rest { drop calls_count.new calls.new ≡ drop calls_count.new calls.old }
    ensures turns_rest { drop turns_count.new turns.new ≡ drop turns_count.new turns.old }
    ensures calls_count { calls_count.new ≡ length followed.now.log.calls.items }
    ensures turns_count { turns_count.new ≡ length followed.now.log.turns.items }
    ensures next { from.new ≡ followed.now.next }
{
    write_log(&followed.log, calls, calls_count, turns, turns_count);
    *from = followed.next;
}

/// Follows the calls of a past, from the count `from` up to the count `to`, or to the first count at which `calls` or `turns` is full.
/// Returns 0 (`DONE`).
///
/// The first `calls_count` of `calls` are those that are open at `from`, oldest first. It writes there those that are open at the count
/// that it reached, to `turns` the counts at which they changed, the numbers of both, and the count that it reached to `from`. `limit` is
/// the highest R14 of the stack. So the next call goes on from what this one left.
///
/// If the budget is spent, the result is 12 (`MORE`), and the same is written; then there is room for another call and another turn.
/// The past runs on and adds keyframes as it needs them.
///
/// Otherwise nothing is written. The result is 13 (`CLOSED`) if no past is open; 1 (`OUT_OF_RANGE`) if `from` is before the first count
/// or after `to`, the budget is 0, `turns` is empty, `calls` has no room for another call, or the given calls are none that a run up to
/// `from` leaves open; else 14 (`LATER`) if `to` is after the end; and 3 (`OUT_OF_MEMORY`) if all is in range and memory ran out. The
/// past stays open, of the same run.
#[unsafe(no_mangle)]
pub extern "C" fn galluspa_past_calls(
    alloc: Global,
    past: &mut RawPast,
    from: &mut u64,
    to: u64,
    limit: u32,
    budget: u64,
    calls: &mut [Call],
    calls_count: &mut usize,
    turns: &mut [RawTurn],
    turns_count: &mut usize,
) -> u8
    ensures done { result ≡ DONE →
        Holds (λ p. HasCalls p.run limit from.old to (take calls_count.old calls.old) (length turns.old) (length calls.old)
        (take calls_count.new calls.new) (take turns_count.new turns.new) from.new) past.old }
    ensures more { result ≡ MORE →
        Holds (λ p. HasCalls p.run limit from.old from.new (take calls_count.old calls.old) (length turns.old) (length calls.old)
        (take calls_count.new calls.new) (take turns_count.new turns.new) from.new) past.old }
    ensures part { result ≡ MORE → (from.new < to) × (calls_count.new < length calls.old) × (turns_count.new < length turns.old) }
    ensures again { (result ≡ DONE) ⊎ (result ≡ MORE) → AreLeftOpen limit from.new (take calls_count.new calls.new) }
    ensures room { (result ≡ DONE) ⊎ (result ≡ MORE) →
        (calls_count.new ≤ length calls.old) × (turns_count.new ≤ length turns.old) }
    ensures rest { (result ≡ DONE) ⊎ (result ≡ MORE) →
        (drop calls_count.new calls.new ≡ drop calls_count.new calls.old) × (drop turns_count.new turns.new ≡ drop turns_count.new turns.old) }
    ensures advances { result ≡ MORE →
        HoldsBoth (λ old new. (old.keyframes < new.keyframes) ⊎ (from.old < from.new)) past.old past.new }
    ensures unchanged { result ≢ DONE → result ≢ MORE → (calls.new ≡ calls.old) × (calls_count.new ≡ calls_count.old)
        × (turns.new ≡ turns.old) × (turns_count.new ≡ turns_count.old) × (from.new ≡ from.old) }
    ensures closed { result ≡ CLOSED ↔ IsClosed past.old }
    ensures range { result ≡ OUT_OF_RANGE →
        Holds (λ p. ¬ (IsCallsQuestion from.old to limit budget calls.old calls_count.old (length turns.old)
        × (p.run.start ≤ from.old))) past.old }
    ensures question { result ≢ CLOSED → result ≢ OUT_OF_RANGE →
        Holds (λ p. IsCallsQuestion from.old to limit budget calls.old calls_count.old (length turns.old)
        × (p.run.start ≤ from.old)) past.old }
    ensures later { result ≡ LATER → Holds (λ p. p.end < to) past.old }
    ensures inside { result ≢ CLOSED → result ≢ OUT_OF_RANGE → result ≢ LATER → Holds (λ p. to ≤ p.end) past.old }
    ensures longer { result ≢ CLOSED → HoldsBoth IsLonger past.old past.new }
    ensures unmoved { (result ≡ OUT_OF_RANGE) ⊎ (result ≡ LATER) → Keeps past.old past.new }
    ensures kept { result ≡ CLOSED → past.new ≡ past.old }
    ensures codes { (result ≤ OUT_OF_RANGE) ⊎ (result ≡ OUT_OF_MEMORY) ⊎ ((MORE ≤ result) × (result ≤ LATER)) }
{
    let Some(mut here) = past.take(alloc) else {
        return CLOSED;
    };
    let called = calls_in(
        alloc,
        &mut here,
        *from,
        to,
        limit,
        budget,
        &*calls,
        *calls_count,
        turns.len(),
    );
    past.put(here);
    match called {
        Ok(Called::Done(followed)) => {
            write_followed(&followed, from, calls, calls_count, turns, turns_count);
            DONE
        }
        Ok(Called::More(followed)) => {
            write_followed(&followed, from, calls, calls_count, turns, turns_count);
            MORE
        }
        Ok(Called::OutOfRange(_)) => OUT_OF_RANGE,
        Err(Unanswered::Range) => OUT_OF_RANGE,
        Err(Unanswered::Later) => LATER,
        Err(Unanswered::Memory) => OUT_OF_MEMORY,
    }
}
