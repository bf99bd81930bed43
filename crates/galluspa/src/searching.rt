//! What a search of a past is asked, in the memory of a caller.
ghost use Rattle.std.specs.Prelude.{◌≢◌, IfErr, OnOk};
ghost use Rattle.oberon_past.specs.Search.{IsRange};
ghost use Rattle.galluspa.specs.Searches.{IsSearch};
ghost use Rattle.galluspa.specs.inner.Asking.{IsUnanswered};

use crate::conditions::{RawCondition, are_conditions};
use crate::ranges::{Unanswered, budget_for};
use oberon_past::{Past, Steps};
use risc_search::MAX_CONDITIONS;

/// Returns the budget of a search, if all that it is asked is in its range. Allocates nothing, so that what is not is never answered
/// with `OUT_OF_MEMORY`.
pub(crate) fn budget_of(
    past: &Past,
    from: u64,
    to: u64,
    conditions: &[RawCondition],
    budget: u64,
) -> Result<Steps, Unanswered>
    ensures search { OnOk result (IsSearch conditions.now from to budget) }
    ensures range { OnOk result (IsRange past.now.run past.now.end from to) }
    ensures refused { IfErr result (IsUnanswered past.now (IsSearch conditions.now from to budget) from to) }
    ensures no_memory { IfErr result (λ refusal. refusal ≢ Unanswered.Memory) }
{
    if conditions.len() > MAX_CONDITIONS || !are_conditions(conditions) {
        return Err(Unanswered::Range);
    }
    let budget = budget_for(past, from, to, budget)?;
    Ok(budget)
}
