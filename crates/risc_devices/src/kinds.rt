//! The numbers of the kinds of inputs (this project's own choice). `kind` has the kinds.

/// Sets the timer.
pub const TIMER: u8 = 1;

/// Sets the buttons and switches.
pub const SWITCHES: u8 = 2;

/// Sets the mouse word.
pub const MOUSE: u8 = 3;

/// A key code, which joins the queue.
pub const KEY: u8 = 4;

/// A byte that comes on the serial line.
pub const SERIAL: u8 = 5;

/// A word that the disk answers.
pub const DISK: u8 = 6;
