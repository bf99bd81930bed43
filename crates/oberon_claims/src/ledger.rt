//! The result of a closed book.
//!
//! This module reads the result from the two words of a closed book. `claims`, which closes the book, proves that the words
//! mean this.
ghost use Rattle.std.specs.Prelude.{◌≡◌, ◌<◌, ◌≤◌, MatchOption, min};
ghost use Rattle.oberon_claims.specs.inner.Book.{nothing};

use crate::book::NOTHING;

/// The number of jobs taken, and the least segment reported.
#[derive(Clone, Copy, Debug, PartialEq, Eq)]
pub struct Ledger {
    /// The number of jobs taken, which are the jobs numbered below it.
    pub taken: u32,
    /// The least segment that any pass reported, or `None` if none was reported.
    pub least: Option<u32>,
}

/// Returns how many of `jobs` jobs were taken by `next` claims.
pub(crate) fn jobs_taken(next: u64, jobs: u32) -> u32
    ensures { result ≡ min next jobs }
{
    if next < u64::from(jobs) {
        next as u32
    } else {
        jobs
    }
}

/// Decodes the word `least`: the segment that it holds, or `None` if it is at least [`NOTHING`].
pub(crate) fn segment_of(least: u64) -> Option<u32>
    ensures { MatchOption result (nothing ≤ least) (λ x. (x ≡ least) × (least < nothing)) }
{
    if least < NOTHING {
        Some(least as u32)
    } else {
        None
    }
}
