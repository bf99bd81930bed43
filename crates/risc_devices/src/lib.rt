//! The devices of the RISC5 workstation of Project Oberon (2013): their sixteen words, their inputs, and the display's picture.
//!
//! Nothing here knows the processor or the memory. A device word has a number from 0 to 15, which [`words`] names, a kind of
//! inputs one from 1 to 6, which [`kinds`] names, and the display is the list of its words.
#![tactic(auto)]

mod devices;
mod disk;
mod display;
mod fault;
mod input;
mod key_queue;
mod kind;
pub mod kinds;
mod laws;
mod phase;
pub mod words;

pub use devices::Devices;
pub use disk::UNANSWERED;
pub use display::picture;
pub use fault::RangeFault;
pub use input::Input;
pub use kind::is_mouse_word;
pub use laws::{device_numbers_law, mouse_law};
pub use phase::is_phase_at;
