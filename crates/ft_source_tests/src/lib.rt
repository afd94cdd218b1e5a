//! Tests of sources: texts that are parsed or refused, their names and limits, and what they are lowered
//! to.
//!
//! These tests have a crate of their own, since a crate with tests is proved twice. Outputs were worked out by hand,
//! and a plain interpreter, independent of the definition that the contract of `lower` cites, runs the flows.
#![tactic(auto)]

#[cfg(test)]
mod flow_run;
#[cfg(test)]
mod lowering;
#[cfg(test)]
mod naming;
#[cfg(test)]
mod parsing;
