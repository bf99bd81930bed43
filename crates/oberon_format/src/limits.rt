//! The limits of the counts in a header, tested for the header of a file and for parts alike.

ghost use Rattle.std.specs.Prelude.{◌≡◌, ◌≤◌};
ghost use Rattle.std.specs.Option.{IfNone};
ghost use Rattle.oberon_format.specs.FirstFault.{first_broken};
ghost use Rattle.oberon_format.specs.Rules.{limit_rules};

use crate::fault::Fault;
use crate::layout::{CHECKPOINTS_AT, EVENTS_AT, PAGES_AT, max_events};
use crate::ranges::MAX_CHECKPOINTS;
use recording_limits::{MAX_EVENTS_WITH_DISK, MAX_PAGES};

pub(crate) fn limits_fault(
    version: u32,
    pages: usize,
    events: usize,
    checkpoints: usize,
) -> Option<Fault>
    ensures fault { result ≡ first_broken (limit_rules version pages events checkpoints) }
    ensures pages { IfNone result (pages ≤ MAX_PAGES) }
    ensures events { IfNone result (events ≤ MAX_EVENTS_WITH_DISK) }
    ensures some { IfNone result (1 ≤ checkpoints) }
    ensures few { IfNone result (checkpoints ≤ MAX_CHECKPOINTS) }
{
    if pages > MAX_PAGES as usize {
        return Some(Fault::Limit(PAGES_AT as u64));
    }
    if events > max_events(version) as usize {
        return Some(Fault::Limit(EVENTS_AT as u64));
    }
    if checkpoints < 1 || checkpoints > MAX_CHECKPOINTS as usize {
        return Some(Fault::Limit(CHECKPOINTS_AT as u64));
    }
    None
}
