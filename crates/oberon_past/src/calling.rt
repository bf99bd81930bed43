//! The calls of a past: those that are open, and the turns, the counts at which they change.
//!
//! What is open at the count from which the calls are followed is given by the caller. A past keeps nothing of it: if its budget is
//! spent, the caller asks again about the rest of the range, from the calls that are open there.
ghost use Rattle.std.specs.Prelude.{◌≡◌, ◌<◌, ◌≤◌, ◌⊎◌, [], IfOk, false, length, true};
ghost use Rattle.risc_machine.specs.CallLogs.{HasRoom, IsReserved};
ghost use Rattle.oberon_past.specs.Calls.{AdvancesCalls, AreOpen, IsCalled};
ghost use Rattle.oberon_past.specs.Past.{IsLonger};

use crate::called::{Called, Calls};
use crate::past::Past;
use crate::searching::search_end;
use crate::steps::Steps;
use risc_machine::CallLog;
use std::alloc::{AllocError, Global};

impl Past {
    /// Follows the calls of the run from the count `from` up to the count `to`, or to the first count at which the log is full. The log
    /// has the calls that are open at `from`, and no turn.
    ///
    /// After `More`, or a full log, ask again with `next` in place of `from`, and with a new log of the calls that are open there: its
    /// turns come after these. Each `More` has added a keyframe or followed a part of the range, so asking again ends.
    ///
    /// It does `budget` instructions to add keyframes up to `from`, and as many to follow from there on; beside these at most two spacings.
    /// If memory runs out, keyframes may have been added.
    pub fn calls(
        &mut self,
        alloc: Global,
        from: u64,
        to: u64,
        log: CallLog,
        budget: Steps,
    ) -> Result<Called, AllocError>
        requires room { HasRoom log }
        requires reserved { IsReserved log }
        requires fresh { log.turns.items ≡ [] }
        requires are_open { AreOpen log.limit from log.calls.items }
        // They are the calls of the one run.
        ensures called { IfOk result (IsCalled self.old.run self.old.end from to log) }
        // The past is of the same run, with keyframes added.
        ensures longer { IsLonger self.old self.new }
        // Asking again ends.
        ensures advances { IfOk result (AdvancesCalls self.old self.new from) }
    {
        if let Some(fault) = self.out_of_range(from, to) {
            return Ok(Called::OutOfRange(fault));
        }
        if from == to {
            return Ok(Called::Done(Calls { log, next: to }));
        }
        if !self.approach(alloc, from, budget)? {
            return Ok(Called::More(Calls { log, next: from }));
        }
        let mut machine = self.machine(alloc, from)?;
        let end = search_end(&machine, from, to, budget);
        let (height, room) = (log.height, log.room);
        let mut log = log;
        let Ok(next) = machine.follow_calls(&self.inputs, from, end, &mut log) else {
            return Err(AllocError);
        };
        if is_part(&log, next, to, height, room) {
            return Ok(Called::More(Calls { log, next }));
        }
        Ok(Called::Done(Calls { log, next }))
    }
}

/// Reports whether a log, which is followed up to the count `next`, has room for more, and `next` is before the end of the range.
fn is_part(log: &CallLog, next: u64, to: u64, height: usize, room: usize) -> bool
    ensures part { result ≡ true → (next < to) × (length log.now.turns.items < room) × (length log.now.calls.items < height) }
    ensures full { result ≡ false → next < to →
        (room ≤ length log.now.turns.items) ⊎ (height ≤ length log.now.calls.items) }
{
    next < to && log.turns.len() < room && log.calls.len() < height
}
