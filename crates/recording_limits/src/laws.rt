//! The law of the limits: the value of each name.

ghost use Rattle.recording_limits.specs.Laws.{HasLimits};

/// States each limit by its value.
pub fn limits_law()
    ensures { HasLimits }
{}
