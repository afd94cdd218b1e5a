//! Tests of objects: their bytes, their assembly texts, and the normal forms of their expressions.
//!
//! These tests have a crate of their own, since a crate with tests is proved twice. The worked objects' bytes were made
//! by another implementation of the format. Errors, lines, places and equal forms were worked out by hand
//! from the format's tables and the typing rules.
#![tactic(auto)]

#[cfg(test)]
mod altered;
#[cfg(test)]
mod assemblies;
#[cfg(test)]
mod bits;
#[cfg(test)]
mod edges;
#[cfg(test)]
mod forms;
#[cfg(test)]
mod texts;
#[cfg(test)]
mod worked;
