//! Accesses: when a step reads or overwrites the word at a site that a fault may strike.
//!
//! The crate promises, over the definitions only and for any object, that a fault whose word no step reads may as well
//! come later, that a word that is never read changes no output and no status, and which faults a strike represents. Its
//! code goes back over a run's steps and keeps the fate of every word. Its definitions: the table of accesses
//! (`specs/Access.antt`), how long a word lasts (`specs/Lasting.antt`), fates (`specs/Fates.antt`, `specs/Kept.antt`),
//! faults that change a word, such as a flip of one bit (`specs/Changed.antt`), and the words of the counters
//! (`specs/Counters.antt`).
#![tactic(auto)]

mod access;
mod fates;
mod laws;

pub use access::{overwrites, reads_site, site_after};
pub use fates::{Fates, FirstRead};
pub use laws::{
    classes_are_exact, dead_words_change_nothing, faults_may_come_later,
    lasting_words_keep_their_values, unread_words_wait, untouched_words_last,
};
