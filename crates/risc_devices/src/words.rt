//! The numbers of the device words ("Project Oberon" 2013, the hardware chapters). `devices` reads and writes them. Words 8 to 15
//! have no name: they read 0, and writes to them do nothing.

/// The timer, in milliseconds.
pub const TIMER: u8 = 0;

/// Read: the buttons in bits 11..8, and the switches in bits 7..0.
pub const SWITCHES: u8 = 1;

/// Written: the LEDs, in bits 7..0.
pub const LEDS: u8 = 1;

/// Read: the byte that the serial line holds. Written: the byte to send.
pub const SERIAL_DATA: u8 = 2;

/// Read: whether a byte was received, and whether one may be sent.
pub const SERIAL_STATUS: u8 = 3;

/// Read: what the disk on the SPI bus answered last, or 255 before its first answer. Its answers are inputs (this project's own
/// choice).
pub const SPI_DATA: u8 = 4;

/// The status of the SPI bus, which is always ready: it reads 1 (this project's own choice).
pub const SPI_STATUS: u8 = 5;

/// Read: the mouse word, and in bit 28 whether a key code waits.
pub const MOUSE: u8 = 6;

/// Read: the oldest waiting key code.
pub const KEYBOARD: u8 = 7;
