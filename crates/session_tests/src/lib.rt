//! Tests of `oberon_session` and `oberon_past`: sessions that are made of their parts, the names of faults, the past of a machine that
//! runs on, and searches, traces, profiles and calls of a past.
//!
//! The tests use only public names. They are in a crate of their own, so that the tested crates are proved once, without them.
#![tactic(auto)]

#[cfg(test)]
mod tests;
