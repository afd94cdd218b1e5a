//! Tests of explanations: a row for every number of every kind of refusal, over files in memory.
//!
//! The crate has only tests. A row has words, the bytes of their files and the whole text. The refusal comes from the
//! tool itself, through a sink that remembers its last line. The texts were written by hand from the rules of each
//! refusal.
#![tactic(auto)]

#[cfg(test)]
mod assemblies;
#[cfg(test)]
mod calls;
#[cfg(test)]
mod checks;
#[cfg(test)]
mod links;
#[cfg(test)]
mod lists;
#[cfg(test)]
mod objects;
#[cfg(test)]
mod outcomes;
#[cfg(test)]
mod sources;
#[cfg(test)]
mod transfers;
#[cfg(test)]
mod usage;
