//! An input with its count. Ordered lists of them are in `inputs`.
ghost use Rattle.std.specs.Prelude.{◌<◌, ◌^◌};

use risc_devices::Input;

/// An input and its count: a running machine takes it before the instruction with that number, counted from 0.
#[derive(Clone, Copy, Debug, PartialEq, Eq)]
pub struct Event {
    /// The number of instructions before it.
    pub count: u64,
    /// The input.
    pub input: Input,
    pub ghost range: { count < 2 ^ 64 },
}
