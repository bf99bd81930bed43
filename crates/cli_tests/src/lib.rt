//! Tests of the program with a disk, and over readers and writers that fail, through `oberon_cli::serve`.
//!
//! Nothing is exported. The tests use public names alone, so the library of the program is proved once, without them.
#![tactic(auto)]

#[cfg(test)]
mod tests;
