//! Explains to people what is wrong with the words of a call, with a text, or with an object's bytes.
//!
//! Each explanation is written to a `Page`: the place in the file, the line there, what is wrong with it and
//! what is expected. The crate runs nothing and checks no types; `ft_explain`, which builds on it, does both.
//! It promises nothing about the wording. Each call is safe and terminates.
#![tactic(auto)]

mod assembly;
mod content;
mod dashes;
mod elsewhere;
mod excerpt;
mod expected;
mod fields;
mod forms;
mod help;
mod kinds;
mod lines;
mod listing;
mod lists;
mod loads;
mod mnemonics;
mod near;
mod numbers;
mod objects;
mod operands;
mod page;
mod records;
mod samples;
mod sessions;
mod sources;
mod spaces;
mod strikes;
mod tables;
mod usage;
mod version;

pub use assembly::explain_text;
pub use content::{Content, begins_as_object, say_other_kind};
pub use excerpt::Place;
pub use forms::{first_word, form_of_words};
pub use help::asks_for_version;
pub use lines::wrong_words;
pub use lists::explain_list;
pub use loads::{OBJECT_LIMIT, SOURCE_LIMIT, load, slice};
pub use near::{is_near, say_near};
pub use numbers::{is_number, say_misfit};
pub use objects::{explain_long, explain_object, rule};
pub use page::Page;
pub use sessions::{BAD_COMMAND, explain_session};
pub use sources::{explain_source, has_place};
pub use strikes::is_fault;
pub use tables::explain_tables;
pub use usage::{explain_option_as_file, explain_usage};
