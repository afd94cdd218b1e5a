//! The interner of normal forms.
//!
//! An `Interner` holds a list of normal forms, as `ft_static` defines them, and a `Form` stands for one of them
//! (`specs/Held.antt`). The list grows, except that `keep_first` forgets the newest forms. The crate promises that each
//! call returns exactly the form that the definition gives for the forms of the parts, that `under` returns the form of
//! a node after a substitution, and that `same` is true exactly when two forms are equal.
#![tactic(auto)]

mod built;
mod entry;
mod form;
mod interner;
mod keys;
mod operations;
mod packed;
mod parts;
mod product;
mod substitution;
mod sum;
mod terms;
mod turns;
mod walk;

pub use form::Form;
pub use interner::Interner;
pub use substitution::Memo;
