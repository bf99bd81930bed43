//! The parts of a state and its output. A false checkpoint is reported with the first part that differs.
//!
//! This module has their names. Their order is in `specs/Difference.antt`, and their comparison in `difference`.
ghost use Rattle.std.specs.Prelude.{◌≡◌, ◌++◌, Some};
ghost use Rattle.oberon_check.specs.Line.{part_name};
ghost use Rattle.oberon_check.specs.inner.Names.{part_number};

use std::fmt;

/// A part of a state, or the bytes sent since the checkpoint before.
///
/// The parts and their order, which is that of the variants here, are this project's own choice.
#[derive(Clone, Copy, Debug, PartialEq, Eq)]
pub enum Part {
    /// The register of this number, 0 to 15: `R0` to `R15`.
    R(u8),
    /// The register H: `H`.
    H,
    /// The program counter: `PC`.
    Pc,
    /// The four flags: `flags`.
    Flags,
    /// Whether and why the machine is stopped: `stop`.
    Stop,
    /// The timer: `timer`.
    Timer,
    /// The number of instructions in a millisecond of the timer: `rate`.
    Rate,
    /// The number of instructions done since the timer's last millisecond: `phase`.
    Phase,
    /// The buttons and switches: `switches`.
    Switches,
    /// The LEDs: `LEDs`.
    Leds,
    /// The mouse word: `mouse`.
    Mouse,
    /// The byte that the serial line holds, and the flag "received": `serial`.
    Serial,
    /// The waiting key codes: `keys`.
    Keys,
    /// What the disk answered last: `disk`.
    Disk,
    /// The bytes sent since the checkpoint before: `out`.
    Sent,
    /// The memory in this page slot, 0 to 1,023: `page 0` to `page 1023`.
    Page(u16),
}

impl Part {
    /// Returns the part's name, without the number at the end of a register's or a page's name.
    fn letters(&self) -> &'static str
        ensures { part_name self.now ≡ result.now ++ part_number self.now }
    {
        match self {
            Part::R(_) => "R",
            Part::H => "H",
            Part::Pc => "PC",
            Part::Flags => "flags",
            Part::Stop => "stop",
            Part::Timer => "timer",
            Part::Rate => "rate",
            Part::Phase => "phase",
            Part::Switches => "switches",
            Part::Leds => "LEDs",
            Part::Mouse => "mouse",
            Part::Serial => "serial",
            Part::Keys => "keys",
            Part::Disk => "disk",
            Part::Sent => "out",
            Part::Page(_) => "page ",
        }
    }
}

impl fmt::Display for Part {
    ghost output = { λ p. Some (part_name p) };

    fn fmt<W: fmt::Write>(&self, f: &mut fmt::Formatter<W>) -> fmt::Result {
        f.write_str(self.letters())?;
        match self {
            Part::R(i) => write!(f, "{i}"),
            Part::Page(slot) => write!(f, "{slot}"),
            _ => Ok(()),
        }
    }
}
