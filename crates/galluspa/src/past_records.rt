//! A trace of a range of a past, in the memory of a caller.
ghost use Rattle.std.specs.Prelude.{◌≡◌, ◌≢◌, ◌≤◌, ◌<◌, ◌+◌, ◌-◌, ◌⊎◌, ◌↔◌, IfErr, IfOk, OnOk, drop, length, min};
ghost use Rattle.oberon_past.specs.Past.{IsLonger};
ghost use Rattle.oberon_past.specs.Search.{IsRange};
ghost use Rattle.oberon_past.specs.Trace.{AdvancesRecords, IsRecorded};
ghost use Rattle.galluspa.specs.Past.{Holds, HoldsBoth, IsClosed, Keeps};
ghost use Rattle.galluspa.specs.Ranges.{AreRecordsOf, IsRecordsQuestion};
ghost use Rattle.galluspa.specs.inner.Asking.{IsUnanswered};
ghost use Rattle.galluspa.specs.inner.Recording.{AreRaw, AreWritable, IsRaw, IsWritable};

use crate::ranges::{Unanswered, budget_for};
use crate::raw::state_of;
use crate::records::{RawRecord, raw_record};
use crate::refusal::{CLOSED, DONE, LATER, MORE, OUT_OF_MEMORY, OUT_OF_RANGE};
use crate::sealed::RawPast;
use oberon_past::{Past, Record, Recorded, Records};
use std::alloc::Global;

/// Returns a record in the layout of C.
fn raw_of(record: &Record) -> RawRecord
    requires { IsWritable record.now }
    ensures { IsRaw record.now result }
{
    let state = state_of(record.count, &record.cpu, &record.devices);
    raw_record(state, &record.effect)
}

/// Writes records to the front of `out`, which has room for them. What is after them stays as it was.
fn write_records(records: &[Record], out: &mut [RawRecord])
    requires room { length records.now ≤ length out.old }
    requires writable { AreWritable records.now }
    ensures front { AreRaw (length records.now) records.now out.new }
    ensures rest { drop (length records.now) out.new ≡ drop (length records.now) out.old }
{
    for index in 0..records.len() {
        out[index] = raw_of(&records[index]);
    }
}

/// Writes the records of a range, their number, and the count to go on from.
fn write_recorded(recorded: &Records, from: &mut u64, out: &mut [RawRecord], out_count: &mut usize)
    requires room { length recorded.now.list.items ≤ length out.old }
    requires writable { AreWritable recorded.now.list.items }
    ensures front { AreRaw out_count.new recorded.now.list.items out.new }
    ensures rest { drop out_count.new out.new ≡ drop out_count.new out.old }
    ensures count { out_count.new ≡ length recorded.now.list.items }
    ensures next { from.new ≡ recorded.now.next }
{
    write_records(&recorded.list, out);
    *out_count = recorded.list.len();
    *from = recorded.next;
}

/// Records the instructions of a range of a past, as `galluspa_past_records` does.
fn records_in(
    alloc: Global,
    past: &mut Past,
    from: u64,
    to: u64,
    budget: u64,
    room: usize,
) -> Result<Recorded, Unanswered>
    ensures recorded { IfOk result (IsRecorded past.old.run past.old.end from to room) }
    ensures question { OnOk result (IsRecordsQuestion from to budget room) }
    ensures range { OnOk result (IsRange past.old.run past.old.end from to) }
    ensures refused { IfErr result (IsUnanswered past.old (IsRecordsQuestion from to budget room) from to) }
    ensures unmoved { IfErr result (λ refusal. refusal ≢ Unanswered.Memory → past.new ≡ past.old) }
    ensures longer { IsLonger past.old past.new }
    ensures advances { IfOk result (AdvancesRecords past.old past.new from) }
{
    if room == 0 {
        return Err(Unanswered::Range);
    }
    let budget = budget_for(past, from, to, budget)?;
    let recorded = past.records(alloc, from, to, room, budget)?;
    Ok(recorded)
}

/// Writes what the instructions of a past do, from the count `from` up to but not including `to`, to the front of `records`: a record
/// for each count, also if the machine is stopped there, or as many as there is room for. Returns 0 (`DONE`), writes their number to
/// `records_count`, and to `from` the count after the last of them. What is after them stays as it was.
///
/// If the budget is spent, the result is 12 (`MORE`), and the same is written, with fewer records than there is room for. After either,
/// a call with the new `from` goes on from there. The past runs on and adds keyframes as it needs them.
///
/// Otherwise nothing is written. The result is 13 (`CLOSED`) if no past is open; 1 (`OUT_OF_RANGE`) if `from` is before the first count
/// or after `to`, the budget is 0, or `records` is empty; else 14 (`LATER`) if `to` is after the end; and 3 (`OUT_OF_MEMORY`) if all is
/// in range and memory ran out. The past stays open, of the same run.
#[unsafe(no_mangle)]
pub extern "C" fn galluspa_past_records(
    alloc: Global,
    past: &mut RawPast,
    from: &mut u64,
    to: u64,
    budget: u64,
    records: &mut [RawRecord],
    records_count: &mut usize,
) -> u8
    ensures recorded { (result ≡ DONE) ⊎ (result ≡ MORE) →
        Holds (λ p. AreRecordsOf records_count.new records.new p.run from.old) past.old }
    ensures next { (result ≡ DONE) ⊎ (result ≡ MORE) → from.new ≡ from.old + records_count.new }
    ensures whole { result ≡ DONE → records_count.new ≡ min (length records.old) (to - from.old) }
    ensures part { result ≡ MORE → records_count.new < min (length records.old) (to - from.old) }
    ensures advances { result ≡ MORE →
        HoldsBoth (λ old new. (old.keyframes < new.keyframes) ⊎ (from.old < from.new)) past.old past.new }
    ensures rest { drop records_count.new records.new ≡ drop records_count.new records.old }
    ensures unchanged { result ≢ DONE → result ≢ MORE →
        (records.new ≡ records.old) × (records_count.new ≡ records_count.old) × (from.new ≡ from.old) }
    ensures closed { result ≡ CLOSED ↔ IsClosed past.old }
    ensures range { result ≡ OUT_OF_RANGE →
        Holds (λ p. ¬ (IsRecordsQuestion from.old to budget (length records.old) × (p.run.start ≤ from.old))) past.old }
    ensures question { result ≢ CLOSED → result ≢ OUT_OF_RANGE →
        Holds (λ p. IsRecordsQuestion from.old to budget (length records.old) × (p.run.start ≤ from.old)) past.old }
    ensures later { result ≡ LATER → Holds (λ p. p.end < to) past.old }
    ensures inside { result ≢ CLOSED → result ≢ OUT_OF_RANGE → result ≢ LATER → Holds (λ p. to ≤ p.end) past.old }
    ensures longer { result ≢ CLOSED → HoldsBoth IsLonger past.old past.new }
    ensures unmoved { (result ≡ OUT_OF_RANGE) ⊎ (result ≡ LATER) → Keeps past.old past.new }
    ensures kept { result ≡ CLOSED → past.new ≡ past.old }
    ensures codes { (result ≤ OUT_OF_RANGE) ⊎ (result ≡ OUT_OF_MEMORY) ⊎ ((MORE ≤ result) × (result ≤ LATER)) }
{
    let Some(mut here) = past.take(alloc) else {
        return CLOSED;
    };
    let recorded = records_in(alloc, &mut here, *from, to, budget, records.len());
    past.put(here);
    match recorded {
        Ok(Recorded::Done(recorded)) => {
            write_recorded(&recorded, from, records, records_count);
            DONE
        }
        Ok(Recorded::More(recorded)) => {
            write_recorded(&recorded, from, records, records_count);
            MORE
        }
        Ok(Recorded::OutOfRange(_)) => OUT_OF_RANGE,
        Err(Unanswered::Range) => OUT_OF_RANGE,
        Err(Unanswered::Later) => LATER,
        Err(Unanswered::Memory) => OUT_OF_MEMORY,
    }
}
