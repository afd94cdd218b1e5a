//! Simulations: two machines that take steps side by side, over any types of states.
//!
//! The crate has no code. Its lemmas are the inductions over steps that higher crates share: what each step keeps holds
//! after any number of steps, and a run ends in one state only (`proofs/Sequences.antt`); if one machine follows each
//! step of another, in any number of its own steps, it follows all of them (`proofs/Steps.antt`). A clause cannot
//! quantify over types, so no function states the lemmas; each crate that uses a lemma states its own result.
#![tactic(auto)]
