//! Tests of `oberon_claims` and `oberon_check`, over their public names: the claim book, segments, verdicts and workers.
//!
//! They also test the whole check on a file that is cut off at each byte, and with gates that hold workers back in the worst
//! order. Nothing is exported.
#![tactic(auto)]

#[cfg(test)]
mod tests;
