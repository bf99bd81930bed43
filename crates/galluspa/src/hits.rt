//! A search for all hits in a run of a machine in the memory of a caller.
ghost use Rattle.std.specs.Prelude.{◌≡◌, ◌≢◌, ◌≤◌, ◌<◌, ◌-◌, ◌⊎◌, drop, length, map, take};
ghost use Rattle.std.specs.Prelude.{All, IfErr, IfOk, OnErr, OnOk};
ghost use Rattle.risc_model.specs.MachineState.{cpu_state};
ghost use Rattle.risc_pages.specs.declared.sizes.TheConstants.{MEMORY_WORDS};
ghost use Rattle.galluspa.specs.Conditions.{hit_of};
ghost use Rattle.galluspa.specs.Hits.{HasFoundHits, IsInHitsRange};
ghost use Rattle.galluspa.specs.Raw.{IsWhole, IsWritten, cpu_of, devices_of, state_of};
ghost use Rattle.galluspa.specs.inner.Hits.{AreHitsOf};

use crate::advance::{are_in_order, inputs_of, write_machine};
use crate::conditions::{RawCondition, RawHit, are_conditions, conditions_of};
use crate::raw::{RawInput, RawState, parts_of};
use crate::refusal::{DONE, OUT_OF_MEMORY, OUT_OF_RANGE, RangeOrMemory};
use crate::words::paged;
use risc_devices::Devices;
use risc_machine::Machine;
use risc_model::{Cpu, Inputs};
use risc_search::{Clause, Hit, MAX_CONDITIONS, find_all};
use std::alloc::{AllocError, Global};

/// Writes nothing before the machine is closed, the last step that can be refused.
fn hits_of_machine(
    alloc: Global,
    mut machine: Machine<'_>,
    state: &mut RawState,
    words: &mut [u32],
    inputs: &Inputs,
    to: u64,
    conditions: &[Clause],
    room: usize,
) -> Result<Vec<Hit>, AllocError>
    requires state { machine.state ≡ state_of state.old words.old }
    requires base { machine.base ≡ words.old }
    requires words { length words.old ≡ MEMORY_WORDS }
    requires forward { state.old.count ≤ to }
    requires few { length conditions.now ≤ MAX_CONDITIONS }
    requires room { 0 < room }
    ensures hits { IfOk result (λ hits.
        AreHitsOf inputs.now to state.old words.old conditions.now room state.new words.new hits.items) }
    ensures unchanged { OnErr result ((state.new ≡ state.old) × (words.new ≡ words.old)) }
{
    let found = find_all(
        alloc,
        &mut machine,
        inputs,
        state.count,
        to,
        conditions,
        room,
    )?;
    write_machine(machine, found.next, state, words)?;
    Ok(found.list)
}

/// Copies the words into pages, starts a machine on these with `parts`, and searches as `hits_of_machine` does.
fn hits_of_parts(
    alloc: Global,
    parts: (Cpu, Devices),
    state: &mut RawState,
    words: &mut [u32],
    inputs: &Inputs,
    to: u64,
    conditions: &[Clause],
    room: usize,
) -> Result<Vec<Hit>, AllocError>
    requires cpu { cpu_state parts.0 ≡ cpu_of state.old }
    requires devices { parts.1 ≡ devices_of state.old }
    requires whole { IsWhole state.old words.old }
    requires forward { state.old.count ≤ to }
    requires few { length conditions.now ≤ MAX_CONDITIONS }
    requires room { 0 < room }
    ensures hits { IfOk result (λ hits.
        AreHitsOf inputs.now to state.old words.old conditions.now room state.new words.new hits.items) }
    ensures unchanged { OnErr result ((state.new ≡ state.old) × (words.new ≡ words.old)) }
{
    let (pool, table) = paged(alloc, words)?;
    let (cpu, devices) = parts;
    let machine = Machine::start(alloc, &pool, &table, cpu, devices)?;
    hits_of_machine(alloc, machine, state, words, inputs, to, conditions, room)
}

/// Tests all numbers before it allocates.
fn search_all(
    alloc: Global,
    state: &mut RawState,
    words: &mut [u32],
    inputs: &[RawInput],
    to: u64,
    conditions: &[RawCondition],
    room: usize,
) -> Result<Vec<Hit>, RangeOrMemory>
    ensures found { IfOk result (λ hits.
        HasFoundHits inputs.now to state.old words.old conditions.now room state.new words.new hits.items) }
    ensures room { IfOk result (λ hits. length hits.items ≤ room) }
    ensures written { OnOk result (IsWritten state.new words.new) }
    ensures unchanged { OnErr result ((state.new ≡ state.old) × (words.new ≡ words.old)) }
    ensures in_range { OnOk result (IsInHitsRange inputs.now to state.old words.old conditions.now room) }
    ensures memory { IfErr result (λ refusal.
        refusal ≡ RangeOrMemory.Memory → IsInHitsRange inputs.now to state.old words.old conditions.now room) }
    ensures range { IfErr result (λ refusal.
        refusal ≡ RangeOrMemory.Range → ¬ (IsInHitsRange inputs.now to state.old words.old conditions.now room)) }
{
    if to < state.count || room == 0 || conditions.len() > MAX_CONDITIONS {
        return Err(RangeOrMemory::Range);
    }
    if !are_in_order(inputs) || !are_conditions(conditions) {
        return Err(RangeOrMemory::Range);
    }
    let Some(parts) = parts_of(state, words) else {
        return Err(RangeOrMemory::Range);
    };
    let inputs = inputs_of(alloc, inputs)?;
    let conditions = conditions_of(alloc, conditions)?;
    let hits = hits_of_parts(alloc, parts, state, words, &inputs, to, &conditions, room)?;
    Ok(hits)
}

/// Returns a hit in the layout of C.
pub(crate) fn raw_hit(hit: &Hit) -> RawHit
    ensures { hit_of result ≡ hit.now }
{
    RawHit {
        count: hit.count,
        condition: hit.condition as u64,
    }
}

/// Writes hits to the front of `out`, which has room for them. What is after them stays as it was.
pub(crate) fn write_hits(hits: &[Hit], out: &mut [RawHit])
    requires { length hits.now ≤ length out.old }
    ensures front { map hit_of (take (length hits.now) out.new) ≡ hits.now }
    ensures rest { drop (length hits.now) out.new ≡ drop (length hits.now) out.old }
{
    for index in 0..hits.len() {
        out[index] = raw_hit(&hits[index]);
    }
}

/// Searches through the run of a machine, from the count of its state up to but not including the count `to`, for all counts at which
/// a condition of a list holds, and advances the machine. The inputs of these counts are taken, and the bytes that it sends are dropped.
/// Returns 0 (`DONE`), writes the counts in their order to the front of `hits`, each with the index of the first condition that holds
/// there, and their number to `hits_count`.
///
/// The state and the words are afterwards those at the count `to`, or, if there is no more room in `hits`, at the count after the last
/// hit: a call with them finds the hits after these. A state that is written has each number in its range, so that the next call takes
/// it.
///
/// Otherwise nothing is written. The result is 1 (`OUT_OF_RANGE`) if `words` is not of 262,144 words, `to` is below the count of the
/// state, `hits` is empty, there are more than 64 conditions, a number of the state, of an input or of a condition is out of its range,
/// conditions are not joined as they may be, or the inputs' counts fall or are above 2^40; and 3 (`OUT_OF_MEMORY`) if all is in range
/// and memory ran out.
#[unsafe(no_mangle)]
pub extern "C" fn galluspa_hits(
    alloc: Global,
    state: &mut RawState,
    words: &mut [u32],
    inputs: &[RawInput],
    to: u64,
    conditions: &[RawCondition],
    hits: &mut [RawHit],
    hits_count: &mut usize,
) -> u8
    ensures found { result ≡ DONE →
        HasFoundHits inputs.now to state.old words.old conditions.now (length hits.old) state.new words.new
        (map hit_of (take hits_count.new hits.new)) }
    ensures room { result ≡ DONE → hits_count.new ≤ length hits.old }
    ensures rest { drop hits_count.new hits.new ≡ drop hits_count.new hits.old }
    ensures written { result ≡ DONE → IsWritten state.new words.new }
    ensures unchanged { result ≢ DONE → (state.new ≡ state.old) × (words.new ≡ words.old) }
    ensures none { result ≢ DONE → (hits.new ≡ hits.old) × (hits_count.new ≡ hits_count.old) }
    ensures in_range { result ≢ OUT_OF_RANGE → IsInHitsRange inputs.now to state.old words.old conditions.now (length hits.old) }
    ensures range { result ≡ OUT_OF_RANGE → ¬ (IsInHitsRange inputs.now to state.old words.old conditions.now (length hits.old)) }
    ensures codes { (result ≤ OUT_OF_RANGE) ⊎ (result ≡ OUT_OF_MEMORY) }
{
    match search_all(alloc, state, words, inputs, to, conditions, hits.len()) {
        Ok(found) => {
            write_hits(&found, hits);
            *hits_count = found.len();
            DONE
        }
        Err(RangeOrMemory::Range) => OUT_OF_RANGE,
        Err(RangeOrMemory::Memory) => OUT_OF_MEMORY,
    }
}
