//! The kinds of inputs, and the values that each takes. What an input does is in `devices`.

ghost use Rattle.std.specs.Prelude.{◌≡◌, ℕ, false, MatchOption};
ghost use Rattle.risc_devices.specs.InputKind.{kind_number, is_input_with_disk, is_mouse};

use crate::kinds::{DISK, KEY, MOUSE, SERIAL, SWITCHES, TIMER};

/// The kind of an input.
#[derive(Clone, Copy, Debug, PartialEq, Eq)]
pub(crate) enum Kind {
    Timer,
    Switches,
    Mouse,
    Key,
    Serial,
    Disk,
}

impl Kind {
    /// Returns the kind with a number, which `kinds` names.
    #[tactic(auto, unfolding(crate::specs::InputKind::is_input, crate::specs::InputKind::is_input_with_disk))]
    pub(crate) fn from_number(number: u8) -> Option<Kind>
        ensures { MatchOption result ((value : ℕ) → is_input_with_disk number value ≡ false) (λ kind. kind_number kind ≡ number) }
    {
        match number {
            TIMER => Some(Kind::Timer),
            SWITCHES => Some(Kind::Switches),
            MOUSE => Some(Kind::Mouse),
            KEY => Some(Kind::Key),
            SERIAL => Some(Kind::Serial),
            DISK => Some(Kind::Disk),
            _ => None,
        }
    }

    /// Returns the kind's number, from 1 to 6.
    #[inline]
    pub(crate) fn number(self) -> u8
        ensures { result ≡ kind_number self }
    {
        match self {
            Kind::Timer => TIMER,
            Kind::Switches => SWITCHES,
            Kind::Mouse => MOUSE,
            Kind::Key => KEY,
            Kind::Serial => SERIAL,
            Kind::Disk => DISK,
        }
    }

    /// Reports whether an input of this kind may have the value.
    #[tactic(auto, unfolding(crate::specs::InputKind::is_input, crate::specs::InputKind::is_input_with_disk))]
    pub(crate) fn takes(self, value: u32) -> bool
        ensures { result ≡ is_input_with_disk (kind_number self) value }
    {
        match self {
            Kind::Timer | Kind::Disk => true,
            Kind::Switches => value < 1 << 12,
            Kind::Mouse => is_mouse_word(value),
            Kind::Key | Kind::Serial => value < 1 << 8,
        }
    }
}

/// Reports whether a word is a mouse word: x in bits 0 to 9, y in bits 12 to 21, the three keys in bits 24 to 26, and no other
/// bit (this project's own choice).
#[tactic(auto, unfolding(crate::specs::InputKind::is_mouse))]
#[inline]
pub fn is_mouse_word(word: u32) -> bool
    ensures { result ≡ is_mouse word }
{
    word % (1 << 12) < 1 << 10 && (word >> 12) % (1 << 12) < 1 << 10 && word >> 24 < 1 << 3
}
