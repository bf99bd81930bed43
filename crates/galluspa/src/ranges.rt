//! A question about a range of counts of a past, in the memory of a caller, and why it gets no answer.
ghost use Rattle.std.specs.Prelude.{◌≡◌, ◌≢◌, IfErr, OnOk};
ghost use Rattle.oberon_past.specs.Search.{IsRange};
ghost use Rattle.galluspa.specs.Ranges.{IsQuestion};
ghost use Rattle.galluspa.specs.inner.Asking.{IsUnanswered};

use oberon_past::{Past, Steps};
use std::alloc::AllocError;

/// Why a caller gets no answer to a question about a range of a past.
#[derive(Clone, Copy)]
pub(crate) enum Unanswered {
    /// A number is out of its range, or the range begins before the first count.
    Range,
    /// The range ends after the end.
    Later,
    /// An allocation failed.
    Memory,
}

impl From<AllocError> for Unanswered {
    ghost use Rattle.std.specs.Prelude.{◌≡◌};
    ghost use Rattle.galluspa.specs.declared.ranges.Unanswered.{Unanswered};

    ghost from_gives = { λ _ refusal. refusal ≡ Unanswered.Memory };

    fn from(_failure: AllocError) -> Unanswered {
        Unanswered::Memory
    }
}

/// Returns the budget of a question, if there is one and the range is one of the past. Allocates nothing, so that a question that is
/// out of its range is never answered with `OUT_OF_MEMORY`.
pub(crate) fn budget_for(past: &Past, from: u64, to: u64, budget: u64) -> Result<Steps, Unanswered>
    ensures question { OnOk result (IsQuestion from to budget) }
    ensures range { OnOk result (IsRange past.now.run past.now.end from to) }
    ensures refused { IfErr result (IsUnanswered past.now (IsQuestion from to budget) from to) }
    ensures no_memory { IfErr result (λ refusal. refusal ≢ Unanswered.Memory) }
{
    let extent = past.extent();
    if from < extent.first || to < from {
        return Err(Unanswered::Range);
    }
    let Some(budget) = Steps::new(budget) else {
        return Err(Unanswered::Range);
    };
    if to > extent.end {
        return Err(Unanswered::Later);
    }
    Ok(budget)
}
