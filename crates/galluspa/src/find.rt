//! A search through a run of a machine in the memory of a caller.
ghost use Rattle.std.specs.Prelude.{◌≡◌, ◌≢◌, ◌≤◌, ◌⊎◌, length};
ghost use Rattle.std.specs.Prelude.{IfErr, IfOk, None, Option, OnOk, Some};
ghost use Rattle.risc_model.specs.MachineState.{cpu_state};
ghost use Rattle.risc_search.specs.Search.{IsFirst, IsLast};
ghost use Rattle.galluspa.specs.Conditions.{hit_of};
ghost use Rattle.galluspa.specs.Find.{HasSearched, IsInSearchRange};
ghost use Rattle.galluspa.specs.Raw.{IsWhole, cpu_of, devices_of, state_of};

use crate::advance::{are_in_order, inputs_of};
use crate::conditions::{RawCondition, RawHit, are_conditions, conditions_of};
use crate::raw::{RawInput, RawState, parts_of};
use crate::refusal::{DONE, NOT_FOUND, OUT_OF_MEMORY, OUT_OF_RANGE, RangeOrMemory};
use crate::words::paged;
use risc_devices::Devices;
use risc_machine::Machine;
use risc_model::{Cpu, Inputs};
use risc_search::{Clause, Hit, MAX_CONDITIONS, find_first, find_last};
use std::alloc::{AllocError, Global};

/// Copies the words into pages, starts a machine on these with `parts`, and searches on it: the caller's words stay as they are.
fn search_parts(
    alloc: Global,
    parts: (Cpu, Devices),
    state: &RawState,
    words: &[u32],
    inputs: &Inputs,
    to: u64,
    conditions: &[Clause],
    wanted: u32,
) -> Result<Option<Hit>, AllocError>
    requires cpu { cpu_state parts.0 ≡ cpu_of state.now }
    requires devices { parts.1 ≡ devices_of state.now }
    requires whole { IsWhole state.now words.now }
    requires forward { state.now.count ≤ to }
    requires few { length conditions.now ≤ MAX_CONDITIONS }
    ensures first { wanted ≡ 0 → IfOk result (IsFirst conditions.now inputs.now state.now.count to (state_of state.now words.now)) }
    ensures last { wanted ≢ 0 → IfOk result (IsLast conditions.now inputs.now state.now.count to (state_of state.now words.now)) }
{
    let (pool, table) = paged(alloc, words)?;
    let (cpu, devices) = parts;
    let mut machine = Machine::start(alloc, &pool, &table, cpu, devices)?;
    if wanted == 0 {
        find_first(alloc, &mut machine, inputs, state.count, to, conditions)
    } else {
        find_last(alloc, &mut machine, inputs, state.count, to, conditions)
    }
}

/// Tests all numbers before it allocates.
fn search(
    alloc: Global,
    state: &RawState,
    words: &[u32],
    inputs: &[RawInput],
    to: u64,
    conditions: &[RawCondition],
    wanted: u32,
) -> Result<Option<Hit>, RangeOrMemory>
    ensures searched { IfOk result (HasSearched inputs.now to state.now words.now conditions.now wanted) }
    ensures in_range { OnOk result (IsInSearchRange inputs.now to state.now words.now conditions.now wanted) }
    ensures memory { IfErr result (λ refusal.
        refusal ≡ RangeOrMemory.Memory → IsInSearchRange inputs.now to state.now words.now conditions.now wanted) }
    ensures range { IfErr result (λ refusal.
        refusal ≡ RangeOrMemory.Range → ¬ (IsInSearchRange inputs.now to state.now words.now conditions.now wanted)) }
{
    if to < state.count || wanted > 1 || conditions.len() > MAX_CONDITIONS {
        return Err(RangeOrMemory::Range);
    }
    if !are_in_order(inputs) || !are_conditions(conditions) {
        return Err(RangeOrMemory::Range);
    }
    let Some(parts) = parts_of(state, words) else {
        return Err(RangeOrMemory::Range);
    };
    let inputs = inputs_of(alloc, inputs)?;
    let conditions = conditions_of(alloc, conditions)?;
    let found = search_parts(alloc, parts, state, words, &inputs, to, &conditions, wanted)?;
    Ok(found)
}

/// Searches through the run of a machine, from the count of its state up to but not including the count `to`, for the first count
/// at which a condition of a list holds if `wanted` is 0, or for the last if it is 1. The inputs of these counts are taken. If
/// there is such a count, returns 0 (`DONE`), and writes it to `hit` with the index of the first condition that holds there; if
/// not, returns 11 (`NOT_FOUND`).
///
/// Nothing else is written. The result is 1 (`OUT_OF_RANGE`) if `words` is not of 262,144 words, `to` is below the count of the
/// state, `wanted` is above 1, there are more than 64 conditions, a number of the state, of an input or of a condition is out of
/// its range, or the inputs' counts fall or are above 2^40; and 3 (`OUT_OF_MEMORY`) if all is in range and memory ran out.
#[unsafe(no_mangle)]
pub extern "C" fn galluspa_find(
    alloc: Global,
    state: &RawState,
    words: &[u32],
    inputs: &[RawInput],
    to: u64,
    conditions: &[RawCondition],
    wanted: u32,
    hit: &mut RawHit,
) -> u8
    ensures found { result ≡ DONE →
        HasSearched inputs.now to state.now words.now conditions.now wanted (Some (hit_of hit.new)) }
    ensures none { result ≡ NOT_FOUND → HasSearched inputs.now to state.now words.now conditions.now wanted None }
    ensures unchanged { result ≢ DONE → hit.new ≡ hit.old }
    ensures in_range { result ≢ OUT_OF_RANGE → IsInSearchRange inputs.now to state.now words.now conditions.now wanted }
    ensures range { result ≡ OUT_OF_RANGE → ¬ (IsInSearchRange inputs.now to state.now words.now conditions.now wanted) }
    ensures codes { (result ≤ OUT_OF_RANGE) ⊎ (result ≡ OUT_OF_MEMORY) ⊎ (result ≡ NOT_FOUND) }
{
    match search(alloc, state, words, inputs, to, conditions, wanted) {
        Ok(Some(found)) => {
            hit.count = found.count;
            hit.condition = found.condition as u64;
            DONE
        }
        Ok(None) => NOT_FOUND,
        Err(RangeOrMemory::Range) => OUT_OF_RANGE,
        Err(RangeOrMemory::Memory) => OUT_OF_MEMORY,
    }
}
