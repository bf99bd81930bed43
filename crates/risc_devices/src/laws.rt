//! The laws of this crate's definitions. Each is the contract of a function that does nothing.
ghost use Rattle.risc_devices.specs.Laws.{DeviceNumbersLaw, MouseLaw};

/// States the number of each device word and of each kind of inputs, and the word of a disk without an answer.
pub const fn device_numbers_law()
    ensures { DeviceNumbersLaw }
{}

/// States that the mouse words are the words within the mask `073FF3FF`.
pub const fn mouse_law()
    ensures { MouseLaw }
{}
