//! Tests of `oberon_format`: files that are read, refused, written and migrated, and recordings made of parts.
//!
//! Nothing is exported. The tests use public names alone, so the crate itself is proved once, without them.
#![tactic(auto)]

#[cfg(test)]
mod tests;
