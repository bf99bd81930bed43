//! Searches through a past: the first hit of a range, the last one, or all of them, for the conditions of `risc_search`.
//!
//! A search keeps nothing for a later one: the answer depends on the run and on the question alone. If its budget is spent, the caller
//! asks again about the rest of the range.
ghost use Rattle.std.specs.Prelude.{◌≡◌, ◌<◌, ◌≤◌, [], IfNone, IfOk, IfSome, OnErr, length};
ghost use Rattle.risc_search.specs.Search.{IsFirst, IsLast};
ghost use Rattle.risc_search.specs.declared.search.TheConstants.{MAX_CONDITIONS};
ghost use Rattle.oberon_past.specs.Past.{IsLonger};
ghost use Rattle.oberon_past.specs.Run.{state_at};
ghost use Rattle.oberon_past.specs.Search.{AdvancesAll, Advances, AreFound, IsFound, IsOutOfRange, IsRange};

use crate::found::{AllFound, Found, OutOfRange, Which};
use crate::past::Past;
use crate::steps::Steps;
use risc_machine::Machine;
use risc_search::{Clause, Hit, Hits, MAX_CONDITIONS, find_all, find_first, find_last};
use std::alloc::{AllocError, Global};

impl Past {
    /// Finds the first or the last count, from `from` up to but not including `to`, at which a condition of the list holds.
    ///
    /// After `More(count)`, ask again with the count in place of `from` if the first hit is wanted, or in place of `to` if the last one
    /// is: the answer about the rest of the range is the answer about the range (`search_law`). Each `More` has added a keyframe or
    /// searched a part of the range, so asking again ends.
    ///
    /// For the first hit it does `budget` instructions to add keyframes up to `from`, and as many to search from there on. For the last
    /// one it does `budget` instructions to add keyframes up to `to`, and as many to search the stretches between keyframes, from the
    /// last one back. It does not cut a stretch short, so beside these it does at most three spacings of instructions. If memory runs
    /// out, keyframes may have been added.
    pub fn find(
        &mut self,
        alloc: Global,
        from: u64,
        to: u64,
        conditions: &[Clause],
        which: Which,
        budget: Steps,
    ) -> Result<Found, AllocError>
        requires few { length conditions.now ≤ MAX_CONDITIONS }
        // It is the answer of the one run.
        ensures found { IfOk result (IsFound self.old.run self.old.end conditions.now which from to) }
        // Only a question about counts of the past can fail.
        ensures inside { OnErr result (IsRange self.old.run self.old.end from to) }
        // The past is of the same run, with keyframes added.
        ensures longer { IsLonger self.old self.new }
        // Asking again ends.
        ensures advances { IfOk result (Advances self.old self.new which from to) }
    {
        if let Some(fault) = self.out_of_range(from, to) {
            return Ok(Found::OutOfRange(fault));
        }
        if from == to {
            return Ok(Found::Done(None));
        }
        match which {
            Which::First => self.find_first(alloc, from, to, conditions, budget),
            Which::Last => self.find_last(alloc, from, to, conditions, budget),
        }
    }

    /// Finds all counts, from `from` up to but not including `to`, at which a condition of the list holds, in their order; or the first
    /// `room` of them.
    ///
    /// A full list ends the search: then `next` is the count after its last hit, even if no more hits follow. After `More`, or a full
    /// list, ask again with `next` in place of `from`: the hits of the rest of the range come after those of the list. Each `More` has
    /// added a keyframe or searched a part of the range, so asking again ends.
    ///
    /// It does `budget` instructions to add keyframes up to `from`, and as many to search from there on; beside these at most two
    /// spacings. If memory runs out, keyframes may have been added.
    pub fn hits(
        &mut self,
        alloc: Global,
        from: u64,
        to: u64,
        conditions: &[Clause],
        room: usize,
        budget: Steps,
    ) -> Result<AllFound, AllocError>
        requires few { length conditions.now ≤ MAX_CONDITIONS }
        requires room { 0 < room }
        // They are the hits of the one run.
        ensures found { IfOk result (AreFound self.old.run self.old.end conditions.now from to room) }
        // Only a question about counts of the past can fail.
        ensures inside { OnErr result (IsRange self.old.run self.old.end from to) }
        // The past is of the same run, with keyframes added.
        ensures longer { IsLonger self.old self.new }
        // Asking again ends.
        ensures advances { IfOk result (AdvancesAll self.old self.new from) }
    {
        if let Some(fault) = self.out_of_range(from, to) {
            return Ok(AllFound::OutOfRange(fault));
        }
        if from == to {
            return Ok(AllFound::Done(no_hits(alloc, to)));
        }
        if !self.approach(alloc, from, budget)? {
            return Ok(AllFound::More(no_hits(alloc, from)));
        }
        let mut machine = self.machine(alloc, from)?;
        let end = search_end(&machine, from, to, budget);
        let hits = find_all(
            alloc,
            &mut machine,
            &self.inputs,
            from,
            end,
            conditions,
            room,
        )?;
        if hits.list.len() < room && end < to {
            return Ok(AllFound::More(hits));
        }
        Ok(AllFound::Done(hits))
    }

    /// Returns why a range is refused, if it is not one of the past.
    pub(crate) fn out_of_range(&self, from: u64, to: u64) -> Option<OutOfRange>
        ensures some { IfSome result (IsOutOfRange self.now.run self.now.end from to) }
        ensures none { IfNone result (IsRange self.now.run self.now.end from to) }
    {
        let extent = self.extent();
        if from < extent.first {
            return Some(OutOfRange::Earlier);
        }
        if to > extent.end {
            return Some(OutOfRange::Later);
        }
        if to < from {
            return Some(OutOfRange::Backward);
        }
        None
    }

    /// Finds the first hit of a range that is not empty.
    fn find_first(
        &mut self,
        alloc: Global,
        from: u64,
        to: u64,
        conditions: &[Clause],
        budget: Steps,
    ) -> Result<Found, AllocError>
        requires range { IsRange self.old.run self.old.end from to }
        requires some { from < to }
        requires few { length conditions.now ≤ MAX_CONDITIONS }
        ensures found { IfOk result (IsFound self.old.run self.old.end conditions.now Which.First from to) }
        ensures longer { IsLonger self.old self.new }
        ensures advances { IfOk result (Advances self.old self.new Which.First from to) }
    {
        if !self.approach(alloc, from, budget)? {
            return Ok(Found::More(from));
        }
        let mut machine = self.machine(alloc, from)?;
        let end = search_end(&machine, from, to, budget);
        let found = find_first(alloc, &mut machine, &self.inputs, from, end, conditions)?;
        if found.is_none() && end < to {
            return Ok(Found::More(end));
        }
        Ok(Found::Done(found))
    }

    /// Finds the last hit of a range that is not empty, from its end back.
    fn find_last(
        &mut self,
        alloc: Global,
        from: u64,
        to: u64,
        conditions: &[Clause],
        budget: Steps,
    ) -> Result<Found, AllocError>
        requires range { IsRange self.old.run self.old.end from to }
        requires some { from < to }
        requires few { length conditions.now ≤ MAX_CONDITIONS }
        ensures found { IfOk result (IsFound self.old.run self.old.end conditions.now Which.Last from to) }
        ensures longer { IsLonger self.old self.new }
        ensures advances { IfOk result (Advances self.old self.new Which.Last from to) }
    {
        if !self.approach(alloc, to, budget)? {
            return Ok(Found::More(to));
        }
        let mut left = budget.count;
        let mut at = to;
        while from < at {
            if left == 0 {
                return Ok(Found::More(at));
            }
            let low = self.stretch_before(from, at);
            if let Some(hit) = self.last_between(alloc, low, at, conditions)? {
                return Ok(Found::Done(Some(hit)));
            }
            left = left.saturating_sub(at - low);
            at = low;
        }
        Ok(Found::Done(None))
    }

    /// Returns the count of the last keyframe before a count, or `from` if that is later.
    fn stretch_before(&self, from: u64, at: u64) -> u64
        requires start { self.now.run.start ≤ from }
        requires some { from < at }
        ensures { (from ≤ result) × (result < at) }
    {
        self.nearest_count(at - 1).max(from)
    }

    /// Finds the last hit of a range, by a run from the last keyframe at or before it.
    fn last_between(
        &self,
        alloc: Global,
        from: u64,
        to: u64,
        conditions: &[Clause],
    ) -> Result<Option<Hit>, AllocError>
        requires start { self.now.run.start ≤ from }
        requires forward { from ≤ to }
        requires few { length conditions.now ≤ MAX_CONDITIONS }
        ensures { IfOk result (IsLast conditions.now self.now.run.inputs from to (state_at self.now.run from)) }
    {
        let mut machine = self.machine(alloc, from)?;
        find_last(alloc, &mut machine, &self.inputs, from, to, conditions)
    }
}

/// Returns where a search or a profile by a machine at the count `from` ends: after `budget` instructions, or at `to`. A machine that is
/// stopped does none.
pub(crate) fn search_end(machine: &Machine<'_>, from: u64, to: u64, budget: Steps) -> u64
    requires { from < to }
    ensures { (from < result) × (result ≤ to) }
{
    if machine.cpu().stop != 0 {
        return to;
    }
    from + budget.count.min(to - from)
}

/// Returns an empty list of hits. It allocates nothing.
fn no_hits(alloc: Global, next: u64) -> Hits
    ensures list { result.list.items ≡ [] }
    ensures next { result.next ≡ next }
{
    Hits {
        list: Vec::new(alloc),
        next,
    }
}
