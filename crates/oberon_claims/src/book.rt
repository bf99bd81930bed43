//! The two shared words, their invariant, which holds between any two atomic steps, and the five kinds of step.
//!
//! This module has the names of the invariant and of the steps in the code. Their definitions are in
//! `specs/inner/Book.antt` and `specs/inner/Steps.antt`; the calls that make the steps are in `claims`.

use atomic_table::{Join, Play, Split, TableRule};
use std::collections::LinkedList;

/// The index of the word `next`: the number of claims made so far. While it is below the number of jobs, it is the next job.
pub const NEXT: usize = 0;

/// The index of the word `least`: the least segment reported, or [`NOTHING`].
pub const LEAST: usize = 1;

/// The value of `least` while no segment is reported: 2^32, which is above every segment.
pub const NOTHING: u64 = 1 << 32;

/// What a seat knows. It exists in proofs only: no code makes a value of it.
pub struct View {
    /// The number of jobs of the book.
    pub jobs: u32,
    /// The number of passes of the book.
    pub workers: u32,
    /// The jobs that the seat took.
    pub taken: LinkedList<u32>,
    /// The segments that it reported.
    pub reported: LinkedList<u32>,
    /// The values of `least` that it was shown.
    pub shown: LinkedList<u32>,
    /// The number of its claims that found no job left.
    pub ends: u32,
    /// The number of passes that it represents: 1 for the seat of a pass, and for the book's own seat those that it has not
    /// handed out.
    pub passes: u32,
}

/// The two numbers that a book is made with, which never change.
#[derive(Clone, Copy)]
pub struct Plan {
    /// The number of jobs, at most `MAX_JOBS`.
    pub jobs: u32,
    /// The number of passes, 1 to `MAX_WORKERS`.
    pub workers: u32,
}

/// The invariant: the two words and the views of all seats are a legal book.
pub struct Legal;

impl TableRule<u8, View, Plan> for Legal {
    ghost use Rattle.oberon_claims.specs.inner.Book.{Kept, own_seat};

    ghost holds = { Kept };

    ghost first = { own_seat };
}

/// A fetch_add on `next`: takes a job, or finds none left.
pub struct Take;

impl Play<u8, View> for Take {
    ghost use Rattle.oberon_claims.specs.inner.Steps.{Takes};

    ghost then = { Takes };
}

/// A load of `least`: shows the least segment reported so far.
pub struct Look;

impl Play<u8, View> for Look {
    ghost use Rattle.oberon_claims.specs.inner.Steps.{Looks};

    ghost then = { Looks };
}

/// A fetch_min on `least`: reports a segment.
pub struct Tell;

impl Play<u8, View> for Tell {
    ghost use Rattle.oberon_claims.specs.inner.Steps.{Tells};

    ghost then = { Tells };
}

/// The split of a seat: hands out one pass.
pub struct HandOut;

impl Split<View> for HandOut {
    ghost use Rattle.oberon_claims.specs.inner.Steps.{view_with_one_less, fresh_view};

    ghost left = { view_with_one_less };

    ghost right = { fresh_view };
}

/// The join of two seats: one takes in what the other has.
pub struct TakeIn;

impl Join<View> for TakeIn {
    ghost use Rattle.oberon_claims.specs.inner.Steps.{joined_view, spent_view};

    ghost both = { joined_view };

    ghost spent = { spent_view };
}
