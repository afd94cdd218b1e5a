//! Tests of the top-level call, over files in memory: each command once; loads, takes and puts that fail; and how many
//! instructions are fetched to judge faults that strike late in a run.
//!
//! These tests have a crate of their own, since a crate with tests is proved twice. A row has the words, the text
//! written and the status. The values come from the definitions and from another implementation, not from this one's
//! output.
#![tactic(auto)]

#[cfg(test)]
mod commands;
#[cfg(test)]
mod counted;
#[cfg(test)]
mod failing_calls;
#[cfg(test)]
mod failing_takes;
