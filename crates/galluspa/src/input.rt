//! Inputs of a live machine, added to its past.
ghost use Rattle.std.specs.Prelude.{◌≡◌, ◌≢◌, ◌≤◌, ◌⊎◌, ◌↔◌, All, IfErr, IsTrue, OnErr, OnOk};
ghost use Rattle.galluspa.specs.Live.{ComeNext, TakesInputs};
ghost use Rattle.galluspa.specs.Past.{Holds, HoldsBoth, IsClosed, Keeps};

use crate::advance::{are_in_order, inputs_of};
use crate::raw::RawInput;
use crate::refusal::{CLOSED, DONE, OUT_OF_MEMORY, OUT_OF_RANGE, RangeOrMemory};
use crate::sealed::RawPast;
use oberon_past::{Past, PastFault};
use std::alloc::Global;

/// Reports whether no input has a count below `least`.
fn are_from(least: u64, inputs: &[RawInput]) -> bool
    ensures { IsTrue result ↔ All (λ input. least ≤ input.count) inputs.now }
{
    inputs.iter().all(|input| least <= input.count)
}

/// Reports whether a caller's inputs are in their ranges and in order, and come next in a past. It allocates nothing.
fn come_next(past: &Past, inputs: &[RawInput]) -> bool
    ensures { IsTrue result ↔ ComeNext inputs.now past.now }
{
    are_in_order(inputs) && are_from(past.next_input(), inputs)
}

/// Adds a caller's inputs to a past, as `galluspa_past_input` does.
fn add_inputs(alloc: Global, past: &mut Past, inputs: &[RawInput]) -> Result<(), RangeOrMemory>
    ensures taken { OnOk result (TakesInputs inputs.now past.old past.new) }
    ensures unchanged { OnErr result (past.new ≡ past.old) }
    ensures range { IfErr result (λ refusal. refusal ≡ RangeOrMemory.Range → ¬ (ComeNext inputs.now past.old)) }
    ensures next { IfErr result (λ refusal. refusal ≡ RangeOrMemory.Memory → ComeNext inputs.now past.old) }
{
    if !come_next(past, inputs) {
        return Err(RangeOrMemory::Range);
    }
    let inputs = inputs_of(alloc, inputs)?;
    match past.input(inputs.events()) {
        Ok(()) => Ok(()),
        Err(PastFault::Order) => Err(RangeOrMemory::Range),
        Err(PastFault::Memory) => Err(RangeOrMemory::Memory),
        Err(_) => unreachable!(),
    }
}

/// Adds inputs to a past, after those that it has, and returns 0 (`DONE`). Its states up to its end stay what they are.
///
/// Otherwise no input is added. The result is 13 (`CLOSED`) if no past is open; 1 (`OUT_OF_RANGE`) if an input is out of its range,
/// their counts fall or are above 2^40, or one is below the end of the past or the count of an input that it has; and 3
/// (`OUT_OF_MEMORY`) if they come next and memory ran out.
#[unsafe(no_mangle)]
pub extern "C" fn galluspa_past_input(alloc: Global, past: &mut RawPast, inputs: &[RawInput]) -> u8
    ensures taken { result ≡ DONE → HoldsBoth (TakesInputs inputs.now) past.old past.new }
    ensures unchanged { result ≢ DONE → Keeps past.old past.new }
    ensures closed { result ≡ CLOSED ↔ IsClosed past.old }
    ensures range { result ≡ OUT_OF_RANGE → Holds (λ p. ¬ (ComeNext inputs.now p)) past.old }
    ensures next { result ≢ CLOSED → result ≢ OUT_OF_RANGE → Holds (ComeNext inputs.now) past.old }
    ensures codes { (result ≤ OUT_OF_RANGE) ⊎ (result ≡ OUT_OF_MEMORY) ⊎ (result ≡ CLOSED) }
{
    let Some(mut here) = past.take(alloc) else {
        return CLOSED;
    };
    let added = add_inputs(alloc, &mut here, inputs);
    past.put(here);
    match added {
        Ok(()) => DONE,
        Err(RangeOrMemory::Range) => OUT_OF_RANGE,
        Err(RangeOrMemory::Memory) => OUT_OF_MEMORY,
    }
}
