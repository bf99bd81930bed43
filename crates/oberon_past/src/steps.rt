//! A number of instructions that is not 0: a spacing or a budget.
ghost use Rattle.std.specs.Prelude.{◌≡◌, ◌<◌, IfNone, IfSome};

/// A number of instructions, at least 1.
#[derive(Clone, Copy, Debug, PartialEq, Eq)]
pub struct Steps {
    pub count: u64,
    pub ghost some: { 0 < count },
}

impl Steps {
    /// Returns this number of instructions, or `None` for 0.
    pub fn new(count: u64) -> Option<Steps>
        ensures none { IfNone result (count ≡ 0) }
        ensures some { IfSome result (λ steps. steps.count ≡ count) }
    {
        if count == 0 {
            return None;
        }
        Some(Steps { count })
    }
}
