//! The inputs of counts.
ghost use Rattle.std.specs.Prelude.{◌≡◌, ◌≤◌, ◌<◌, ◌+◌, ◌-◌, ◌^◌, ◌↔◌, ℕ};
ghost use Rattle.risc_model.specs.InputOrder.{AreOrdered};
ghost use Rattle.risc_search.specs.Condition.{HasInput};
ghost use Rattle.risc_search.specs.inner.Due.{HasKind, IsQuiet};

use risc_model::{Event, first_from, quiet_until};

/// Returns the count of the first input from the count `at` on, or `to` if there is none before it.
pub(crate) fn next_due(events: &[Event], at: u64, to: u64) -> u64
    requires order { AreOrdered events.now }
    requires forward { at ≤ to }
    ensures later { at ≤ result }
    ensures inside { result ≤ to }
    ensures quiet { IsQuiet events.now at result }
{
    let next = first_from(events, at);
    quiet_until(events, next, at, to)
}

/// Returns the count of the first input from the count `at` on, as `next_due` does, if none comes before it that was due at `due`
/// or earlier.
#[inline(always)]
pub(crate) fn due_after(events: &[Event], at: u64, due: u64, to: u64) -> u64
    requires order { AreOrdered events.now }
    requires forward { at ≤ to }
    requires inside { due ≤ to }
    requires quiet { at ≤ due → IsQuiet events.now at due }
    ensures later { at ≤ result }
    ensures inside { result ≤ to }
    ensures quiet { IsQuiet events.now at result }
{
    if at <= due {
        due
    } else {
        next_due(events, at, to)
    }
}

pub(crate) fn inputs_at(events: &[Event], at: u64) -> &[Event]
    requires order { AreOrdered events.now }
    requires below { at < 2 ^ 64 - 1 }
    ensures { (kind : ℕ) → HasKind kind result.now ↔ HasInput kind events.now at }
{
    let first = first_from(events, at);
    let end = first_from(events, at + 1);
    &events[first..end]
}
