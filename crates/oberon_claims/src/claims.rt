//! The book that workers share, and its calls.
//!
//! This module makes and closes a book, and has the three calls of a worker, each of which is at most one atomic step on a
//! shared word. The invariant that the steps keep is in `book`; how the result is read from the closed words, in `ledger`.
ghost use Rattle.std.specs.Prelude.{◌≡◌, ◌<◌, ◌≤◌, false, true, [], None, IfSome, IfNone, IfOk, All, Contains, replicate, vec_len};
ghost use Rattle.oberon_claims.specs.Counts.{IsEachOnceBelow};
ghost use Rattle.oberon_claims.specs.Pass.{fresh_pass, pass_with_job, pass_with_end, pass_with_reported, pass_with_shown};
ghost use Rattle.oberon_claims.specs.Ledger.{all_taken, all_reported, all_shown, SomeEnded, IsLeastOf, IsNotBelow};

use crate::book::{HandOut, LEAST, Legal, Look, NEXT, NOTHING, Plan, Take, TakeIn, Tell, View};
use crate::ledger::{Ledger, jobs_taken, segment_of};
use crate::own::OwnSeat;
use crate::pass::Pass;
use atomic_table::Table;
use std::alloc::{AllocError, Global};
use std::marker::Model;

/// The most passes that a book has, and so the most workers that share it (this project's own choice).
pub const MAX_WORKERS: u32 = 64;

/// The most jobs that a book has: as many as a recording has segments at most (this project's own choice).
pub const MAX_JOBS: u32 = 4_096;

/// A book of jobs, numbered from 0, which threads share by reference.
///
/// Contracts see its identity, its number of jobs, at most `MAX_JOBS`, and its number of passes, 1 to `MAX_WORKERS`.
#[derive(Drop)]
pub struct Claims {
    table: Table<u8, View, Plan, Legal, Global>,
    own: OwnSeat,
    jobs: u32,
}

impl Model for Claims {
    ghost use Rattle.oberon_claims.specs.Pass.{BookId};

    ghost Value = { BookId };

    ghost use Rattle.oberon_claims.specs.inner.Shown.{shown_book, IsBook};

    ghost view = { shown_book };

    ghost invariant = { IsBook };
}

impl Claims {
    /// Makes a book of `jobs` jobs, at most `MAX_JOBS`, and `workers` fresh passes of it, 1 to `MAX_WORKERS`.
    ///
    /// It fails only if memory runs out.
    pub fn new(alloc: Global, jobs: u32, workers: u32) -> Result<(Claims, Vec<Pass>), AllocError>
        requires jobs { jobs ≤ MAX_JOBS }
        requires workers { (1 ≤ workers) × (workers ≤ MAX_WORKERS) }
        ensures jobs { IfOk result (λ r. r.0.jobs ≡ jobs) }
        ensures workers { IfOk result (λ r. r.0.workers ≡ workers) }
        ensures passes { IfOk result (λ r. r.1.items ≡ replicate workers (fresh_pass r.0)) }
    {
        let plan = Plan { jobs, workers };
        let (table, mut own) = Table::of_words(alloc, &[0, NOTHING], &plan)?;
        let mut passes = Vec::new(alloc);
        for _worker in 0..workers {
            let seat = table.shared.split_seat::<HandOut>(&mut own);
            passes.push(Pass {
                seat,
                answered_none: false,
            })?;
        }
        let own = OwnSeat::new(alloc, own)?;
        Ok((Claims { table, own, jobs }, passes))
    }

    /// Takes the next job, which no pass has taken before, or returns `None` if all jobs are taken.
    ///
    /// It is one fetch_add on `next`, allocates nothing and never waits. Once it has returned `None` for a pass, it returns
    /// `None` for that pass again, without a step. The contract of `finish` says that no two passes have the same job.
    pub fn claim(&self, pass: &mut Pass) -> Option<u32>
        requires book { pass.old.book ≡ self.now }
        ensures job { IfSome result (λ job. job < self.now.jobs) }
        ensures above { IfSome result (λ job. All (λ x. x < job) pass.old.taken) }
        ensures taken { IfSome result (λ job. pass.new ≡ pass_with_job pass.old job) }
        ensures none { IfNone result (pass.new ≡ pass_with_end pass.old) }
        ensures stays { pass.old.ended ≡ true → (result ≡ None) × (pass.new ≡ pass.old) }
    {
        if pass.answered_none {
            return None;
        }
        let found = self.table.shared.fetch_add::<Take>(&mut pass.seat, NEXT, 1);
        if found < u64::from(self.jobs) {
            Some(found as u32)
        } else {
            pass.answered_none = true;
            None
        }
    }

    /// Returns a segment that some pass reported, and that is not above any that this pass reported or was shown; or `None`, only
    /// if there is none of these.
    ///
    /// It is one load of `least`, allocates nothing and never waits. The contract of `finish` says that some pass reported
    /// the value. No contract promises that a look sees what another pass reported before it.
    pub fn look(&self, pass: &mut Pass) -> Option<u32>
        requires book { pass.old.book ≡ self.now }
        ensures reported { IfSome result (λ x. All (λ y. x ≤ y) pass.old.reported) }
        ensures shown { IfSome result (λ x. All (λ y. x ≤ y) pass.old.shown) }
        ensures joins { IfSome result (λ x. pass.new ≡ pass_with_shown pass.old x) }
        ensures none { IfNone result ((pass.old.reported ≡ []) × (pass.old.shown ≡ [])) }
        ensures stays { IfNone result (pass.new ≡ pass.old) }
    {
        segment_of(self.table.shared.load::<Look>(&mut pass.seat, LEAST))
    }

    /// Reports a segment, so that later looks of this pass return none above it.
    ///
    /// It is one fetch_min on `least`, allocates nothing and never waits.
    pub fn tell(&self, pass: &mut Pass, segment: u32)
        requires book { pass.old.book ≡ self.now }
        ensures { pass.new ≡ pass_with_reported pass.old segment }
    {
        self.table
            .shared
            .fetch_min::<Tell>(&mut pass.seat, LEAST, u64::from(segment));
    }

    /// Closes the book and takes back all its passes. Returns how many jobs they took, and the least segment that any reported.
    ///
    /// It allocates nothing and cannot fail.
    pub fn finish(self, passes: Vec<Pass>) -> Ledger
        requires all { vec_len passes ≡ self.workers }
        requires book { All (λ p. p.book ≡ self) passes.items }
        ensures jobs { result.taken ≤ self.jobs }
        // The jobs taken are together the numbers below `taken`, each once.
        ensures taken { IsEachOnceBelow result.taken (all_taken passes.items) }
        ensures whole { SomeEnded passes.items → result.taken ≡ self.jobs }
        ensures least { IsLeastOf (all_reported passes.items) result.least }
        ensures shown { All (λ x. Contains (all_reported passes.items) x) (all_shown passes.items) }
        ensures not_below { IsNotBelow result.least (all_shown passes.items) }
        // A book has a pass by its type, so a caller that has all passes has one, and need not test for it.
        ensures workers { (1 ≤ self.workers) × (self.workers ≤ MAX_WORKERS) }
    {
        let Claims { table, own, jobs } = self;
        let mut own = own.into_seat();
        for pass in passes {
            let Pass {
                seat,
                answered_none: _,
            } = pass;
            table.shared.join_seat::<TakeIn>(&mut own, seat);
        }
        let closed = table.close_with(own);
        let next = closed.word(NEXT);
        let least = closed.word(LEAST);
        closed.free();
        Ledger {
            taken: jobs_taken(next, jobs),
            least: segment_of(least),
        }
    }
}
