//! How often a run of a machine in the memory of a caller does each instruction.
ghost use Rattle.std.specs.Prelude.{◌≡◌, ◌≢◌, ◌≤◌, ◌<◌, ◌-◌, ◌^◌, ◌⊎◌, ℕ, length, slice_index, IfErr, OnErr, OnOk};
ghost use Rattle.risc_machine.specs.Tallies.{AreVisits};
ghost use Rattle.risc_model.specs.MachineState.{cpu_state};
ghost use Rattle.risc_pages.specs.declared.sizes.TheConstants.{MEMORY_WORDS};
ghost use Rattle.galluspa.specs.Profile.{HasProfiled, IsInProfileRange};
ghost use Rattle.galluspa.specs.Raw.{IsWhole, cpu_of, devices_of, state_of};
ghost use Rattle.galluspa.specs.inner.Counting.{AreDepartures};

use crate::advance::{are_in_order, inputs_of};
use crate::raw::{RawInput, RawState, parts_of};
use crate::refusal::{DONE, OUT_OF_MEMORY, OUT_OF_RANGE, RangeOrMemory};
use crate::words::paged;
use risc_devices::Devices;
use risc_machine::{Counters, Machine};
use risc_model::{Cpu, Inputs};
use risc_pages::MEMORY_WORDS;
use std::alloc::{AllocError, Global};

/// States that each number is below 2^64, which its type ensures.
fn numbers_fit(numbers: &[u64])
    ensures { (i : ℕ) → slice_index numbers.now i < 2 ^ 64 }
{}

/// Copies the words into pages, starts a machine on these with `parts`, and counts the branches of its run: the caller's words stay
/// as they are. Writes nothing before the run has ended.
fn profile_parts(
    alloc: Global,
    parts: (Cpu, Devices),
    state: &RawState,
    words: &[u32],
    inputs: &Inputs,
    to: u64,
    visits: &mut [u64],
    departures: &mut [u64],
) -> Result<(), AllocError>
    requires cpu { cpu_state parts.0 ≡ cpu_of state.now }
    requires devices { parts.1 ≡ devices_of state.now }
    requires whole { IsWhole state.now words.now }
    requires forward { state.now.count ≤ to }
    requires visits { length visits.old ≡ MEMORY_WORDS }
    requires departures { length departures.old ≡ MEMORY_WORDS }
    ensures visits { OnOk result
        (AreVisits inputs.now state.now.count (to - state.now.count) (state_of state.now words.now) visits.new) }
    ensures departures { OnOk result
        (AreDepartures inputs.now state.now.count (to - state.now.count) (state_of state.now words.now) departures.new) }
    ensures unchanged { OnErr result ((visits.new ≡ visits.old) × (departures.new ≡ departures.old)) }
{
    let (pool, table) = paged(alloc, words)?;
    let mut counters = Counters::new(alloc)?;
    let (cpu, devices) = parts;
    let mut machine = Machine::start(alloc, &pool, &table, cpu, devices)?;
    let Ok(()) = machine.profile(inputs, state.count, to, &mut counters) else {
        return Err(AllocError);
    };
    counters.visits(&cpu, machine.cpu(), visits);
    counters.departures(departures);
    Ok(())
}

/// Tests all numbers before it allocates.
fn profile(
    alloc: Global,
    state: &RawState,
    words: &[u32],
    inputs: &[RawInput],
    to: u64,
    visits: &mut [u64],
    departures: &mut [u64],
) -> Result<(), RangeOrMemory>
    ensures profiled { OnOk result (HasProfiled inputs.now to state.now words.now visits.new departures.new) }
    ensures in_range { OnOk result (IsInProfileRange inputs.now to state.now words.now visits.old departures.old) }
    ensures unchanged { OnErr result ((visits.new ≡ visits.old) × (departures.new ≡ departures.old)) }
    ensures memory { IfErr result (λ refusal.
        refusal ≢ RangeOrMemory.Range → IsInProfileRange inputs.now to state.now words.now visits.old departures.old) }
    ensures range { IfErr result (λ refusal.
        refusal ≡ RangeOrMemory.Range → ¬ (IsInProfileRange inputs.now to state.now words.now visits.old departures.old)) }
{
    let count = MEMORY_WORDS as usize;
    if to < state.count || visits.len() != count || departures.len() != count {
        return Err(RangeOrMemory::Range);
    }
    if !are_in_order(inputs) {
        return Err(RangeOrMemory::Range);
    }
    let Some(parts) = parts_of(state, words) else {
        return Err(RangeOrMemory::Range);
    };
    let inputs = inputs_of(alloc, inputs)?;
    profile_parts(alloc, parts, state, words, &inputs, to, visits, departures)?;
    numbers_fit(visits);
    numbers_fit(departures);
    Ok(())
}

/// Runs a machine from the count of its state up to the count `to`, with the inputs of these counts, and writes for each word of
/// memory how often its instruction was done, to `visits`, and how often it led to another word than the next one, to `departures`.
/// An instruction that stops the machine is done, and leads to no next word. The bytes that the machine sends are dropped. Returns 0
/// (`DONE`).
///
/// Otherwise nothing is written, and the result is 1 (`OUT_OF_RANGE`) if `words`, `visits` or `departures` is not of 262,144
/// elements, `to` is below the count of the state, a number of the state or of an input is out of its range, or the inputs' counts
/// fall or are above 2^40; and 3 (`OUT_OF_MEMORY`) if all is in range and memory ran out.
#[unsafe(no_mangle)]
pub extern "C" fn galluspa_profile(
    alloc: Global,
    state: &RawState,
    words: &[u32],
    inputs: &[RawInput],
    to: u64,
    visits: &mut [u64],
    departures: &mut [u64],
) -> u8
    ensures profiled { result ≡ DONE → HasProfiled inputs.now to state.now words.now visits.new departures.new }
    ensures unchanged { result ≢ DONE → (visits.new ≡ visits.old) × (departures.new ≡ departures.old) }
    ensures in_range { result ≢ OUT_OF_RANGE →
        IsInProfileRange inputs.now to state.now words.now visits.old departures.old }
    ensures range { result ≡ OUT_OF_RANGE →
        ¬ (IsInProfileRange inputs.now to state.now words.now visits.old departures.old) }
    ensures codes { (result ≤ OUT_OF_RANGE) ⊎ (result ≡ OUT_OF_MEMORY) }
{
    match profile(alloc, state, words, inputs, to, visits, departures) {
        Ok(()) => DONE,
        Err(RangeOrMemory::Range) => OUT_OF_RANGE,
        Err(RangeOrMemory::Memory) => OUT_OF_MEMORY,
    }
}
