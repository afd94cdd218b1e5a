//! Tests of sinks, shelves and sources, the machine, struck runs, the debugger, the scheduler and flows.
//!
//! These tests have a crate of their own, since a crate with tests is proved twice. The values come from the
//! definitions, not from this implementation's output. Worked objects were made by another implementation
//! of the format; expected schedules come from a program that makes random permitted exchanges until none
//! is left.
#![tactic(auto)]

#[cfg(test)]
mod checked;
#[cfg(test)]
mod flows;
#[cfg(test)]
mod full;
#[cfg(test)]
mod halting;
#[cfg(test)]
mod indexed;
#[cfg(test)]
mod machine;
#[cfg(test)]
mod orders;
#[cfg(test)]
mod outside;
#[cfg(test)]
mod runs;
#[cfg(test)]
mod scripts;
#[cfg(test)]
mod sessions;
#[cfg(test)]
mod strikes;
#[cfg(test)]
mod told;
