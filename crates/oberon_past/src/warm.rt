//! The machine at the end of a past, which is kept so that the next run goes on from it.

ghost use Rattle.std.specs.Prelude.{◌≡◌, IfSome};

use risc_machine::{DetachedMachine, Machine};

/// The machine at the end of a past, and the count of the keyframe whose memory it began with.
#[derive(Drop)]
pub(crate) struct Warm {
    pub(crate) machine: DetachedMachine,
    pub(crate) from: u64,
}

/// Detaches a machine, whose memory it began with at the count `from`. Returns none if memory runs out.
pub(crate) fn kept_warm(machine: Machine<'_>, from: u64) -> Option<Warm>
    ensures machine { IfSome result (λ warm. warm.machine ≡ machine.entry) }
    ensures from { IfSome result (λ warm. warm.from ≡ from) }
{
    match machine.detach() {
        Ok(machine) => Some(Warm { machine, from }),
        Err(_) => None,
    }
}
