//! The phase of a timer that counts instructions. How it rises is in `devices`.

ghost use Rattle.std.specs.Prelude.{◌≡◌};
ghost use Rattle.risc_devices.specs.DeviceState.{is_phase};

/// Reports whether a timer with this rate can have this phase: it is below the rate, or 0 if the rate is 0 (this project's own
/// choice).
///
/// The rate is in instructions a millisecond, and the phase in instructions.
#[inline]
#[tactic(auto, unfolding(crate::specs::DeviceState::is_phase))]
pub fn is_phase_at(rate: u32, phase: u32) -> bool
    ensures { result ≡ is_phase rate phase }
{
    if rate == 0 { phase == 0 } else { phase < rate }
}
