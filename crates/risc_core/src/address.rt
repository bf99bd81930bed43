//! The target of an address. `locate` computes it.

/// The target of an address, which is what it names: a word of RAM, a device word, or nothing (Project Oberon 2013, hardware
/// chapters). That addresses between RAM and the device words name nothing is this project's own choice.
#[derive(Clone, Copy, Debug, PartialEq, Eq)]
pub enum Place {
    /// The word of RAM with that number, below 262,144.
    Ram(u32),
    /// The device word with that number, below 16.
    Device(u8),
    /// An address between RAM and the device words.
    Nowhere,
}
