//! The laws of this crate's definitions. Each is the contract of a function that does nothing.
ghost use Rattle.risc_model.specs.Laws.{DiskLaw, RunLaw, StoppedLaw, StopLaw, IdleLoopLaw, IdleVisitLaw, LaneLaw, LastCountLaw, VisitLaw, CallsLaw, TurnsLaw, StackLaw, InclusiveLaw};

/// States that a run continues a run, and so do the bytes that it sends.
pub const fn run_law()
    ensures { RunLaw }
{}

/// States that a stopped machine stays as it is, takes no inputs and sends nothing.
pub const fn stopped_law()
    ensures { StoppedLaw }
{}

/// States that an instruction that stops the machine sets the stop and changes nothing else.
pub const fn stop_law()
    ensures { StopLaw }
{}

/// States that the iterations of an idle loop follow one another, as long as no millisecond of the timer ends in them.
pub const fn idle_loop_law()
    ensures { IdleLoopLaw }
{}

/// States that the branches of a run say how often each word was visited.
pub const fn visit_law()
    ensures { VisitLaw }
{}

/// States that the iterations of an idle loop count the same at each word.
pub const fn idle_visit_law()
    ensures { IdleVisitLaw }
{}

/// States that inputs of the disk alone change its answer.
pub const fn disk_law()
    ensures { DiskLaw }
{}

/// States the value of the greatest count of an input.
pub const fn last_count_law()
    ensures { LastCountLaw }
{}

/// States that a byte stored in a lane of a word is the byte of that lane, and that the other lanes keep theirs.
pub const fn lane_law()
    ensures { LaneLaw }
{}

/// States that the open calls and the turns of a run continue those of a run.
pub const fn calls_law()
    ensures { CallsLaw }
{}

/// States that the turns of a run say which calls are open after it.
pub const fn turns_law()
    ensures { TurnsLaw }
{}

/// States that the open calls of a run are a stack: their counts rise, and R14 falls along it.
pub const fn stack_law()
    ensures { StackLaw }
{}

/// States that inclusive counts of a run continue those of a run.
pub const fn inclusive_law()
    ensures { InclusiveLaw }
{}
