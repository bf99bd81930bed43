//! How often a past executes each word of memory.
//!
//! Counts are added to those of the caller, and a past keeps nothing of a profile: what is added depends on the run and on the question
//! alone. If its budget is spent, the caller asks again about the rest of the range.
ghost use Rattle.std.specs.Prelude.{◌≡◌, ◌+◌, ◌%◌, ◌<◌, ◌≤◌, ◌^◌, ℕ, IfOk, OnErr, OnOk, length, slice_index};
ghost use Rattle.risc_pages.specs.declared.sizes.TheConstants.{MEMORY_WORDS};
ghost use Rattle.oberon_past.specs.Past.{IsLonger};
ghost use Rattle.oberon_past.specs.Profile.{AdvancesProfile, HasProfiled, IsProfiled};

use crate::past::Past;
use crate::profiled::Profiled;
use crate::searching::search_end;
use crate::steps::Steps;
use risc_machine::{Counters, Machine};
use risc_model::Inputs;
use risc_pages::MEMORY_WORDS;
use std::alloc::{AllocError, Global};

impl Past {
    /// Counts how often the run from the count `from` up to, but not including, `to` executes each word of memory: `visits` has how often
    /// its instruction is done, and `departures` how often this leads elsewhere than to the next word. An instruction that stops the
    /// machine is done, and leads to no next word. The numbers are added to those that the caller has; after 2^64 - 1 a number begins
    /// again at 0.
    ///
    /// After `More(count)`, ask again with the count in place of `from`: what is added then counts the rest (`profile_law`). Each `More`
    /// has added a keyframe or counted a part of the range, so asking again ends.
    ///
    /// It does `budget` instructions to add keyframes up to `from`, and as many to count from there on; beside these at most two spacings.
    /// If memory runs out, keyframes may have been added, and nothing is counted.
    pub fn profile(
        &mut self,
        alloc: Global,
        from: u64,
        to: u64,
        visits: &mut [u64],
        departures: &mut [u64],
        budget: Steps,
    ) -> Result<Profiled, AllocError>
        requires visits { length visits.old ≡ MEMORY_WORDS }
        requires departures { length departures.old ≡ MEMORY_WORDS }
        // What is added are the counts of the one run.
        ensures profiled { IfOk result (IsProfiled self.old.run self.old.end from to
            (record { visits = visits.old; departures = departures.old })
            (record { visits = visits.new; departures = departures.new })) }
        ensures unchanged { OnErr result ((visits.new ≡ visits.old) × (departures.new ≡ departures.old)) }
        ensures visits { length visits.new ≡ length visits.old }
        ensures departures { length departures.new ≡ length departures.old }
        // The past is of the same run, with keyframes added.
        ensures longer { IsLonger self.old self.new }
        // Asking again ends.
        ensures advances { IfOk result (AdvancesProfile self.old self.new from) }
    {
        if let Some(fault) = self.out_of_range(from, to) {
            return Ok(Profiled::OutOfRange(fault));
        }
        if from == to {
            return Ok(Profiled::Done);
        }
        if !self.approach(alloc, from, budget)? {
            return Ok(Profiled::More(from));
        }
        let mut machine = self.machine(alloc, from)?;
        let end = search_end(&machine, from, to, budget);
        count_steps(
            alloc,
            &mut machine,
            &self.inputs,
            from,
            end,
            visits,
            departures,
        )?;
        if end < to {
            return Ok(Profiled::More(end));
        }
        Ok(Profiled::Done)
    }
}

/// Does the steps of a machine from the count `from` up to the count `to`, and adds their visits and departures. It adds nothing before
/// the last step is done.
fn count_steps(
    alloc: Global,
    machine: &mut Machine<'_>,
    inputs: &Inputs,
    from: u64,
    to: u64,
    visits: &mut [u64],
    departures: &mut [u64],
) -> Result<(), AllocError>
    requires forward { from ≤ to }
    requires visits { length visits.old ≡ MEMORY_WORDS }
    requires departures { length departures.old ≡ MEMORY_WORDS }
    ensures profiled { OnOk result (HasProfiled (record { start = from; first = machine.old.state; inputs = inputs.now }) from to
        (record { visits = visits.old; departures = departures.old })
        (record { visits = visits.new; departures = departures.new })) }
    ensures unchanged { OnErr result ((visits.new ≡ visits.old) × (departures.new ≡ departures.old)) }
    ensures count { (length visits.new ≡ length visits.old) × (length departures.new ≡ length departures.old) }
{
    let mut counters = Counters::new(alloc)?;
    let mut numbers = vec![in alloc; 0u64; MEMORY_WORDS as usize]?;
    let first = *machine.cpu();
    let Ok(()) = machine.profile(inputs, from, to, &mut counters) else {
        return Err(AllocError);
    };
    counters.visits(&first, machine.cpu(), &mut numbers);
    add(&numbers, visits);
    counters.departures(&mut numbers);
    add(&numbers, departures);
    Ok(())
}

/// Adds to each count the number that is more. After 2^64 - 1 a count begins again at 0.
fn add(more: &[u64], counts: &mut [u64])
    requires { length more.now ≡ length counts.old }
    ensures sums { (p : ℕ) → p < length counts.old →
        slice_index counts.new p ≡ (slice_index counts.old p + slice_index more.now p) % 2 ^ 64 }
    ensures count { length counts.new ≡ length counts.old }
{
    for index in 0..counts.len() {
        counts[index] = counts[index].wrapping_add(more[index]);
    }
}
