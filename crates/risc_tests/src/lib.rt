//! Tests of `risc_core`, `risc_pages`, `risc_devices`, `risc_model` and `risc_machine`, over their public names.
//!
//! `instructions` tests `risc_core`, `pages` `risc_pages`, `devices` `risc_devices`, and `machine` the last two.
//! They are in a crate of their own, so that the tested crates are proved once, without them. Nothing is exported.
#![tactic(auto)]

#[cfg(test)]
mod devices;
#[cfg(test)]
mod instructions;
#[cfg(test)]
mod machine;
#[cfg(test)]
mod pages;
