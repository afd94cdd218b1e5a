//! The debugger: a session over a script of commands, with steps forward and back, strikes and breakpoints.
//!
//! The crate promises that, unless a write fails or memory runs out, `session` writes the lines of the session as
//! defined. By this definition, each position shows the state of a run from the start with the strikes made so far;
//! with at most one strike, it is a run of `ft_semantics` (`sessions_show_runs`). The code keeps the last 4,096 states
//! in a ring. Its definitions: `specs/Sessions.antt`, `specs/Ends.antt`. The commands are those of `ft_script`.
#![tactic(auto)]

mod answers;
mod break_places;
mod code_places;
mod debug_end;
mod debugger;
mod history;
mod laws;
mod lines;
mod moment;
mod sessions;

pub use debug_end::DebugEnd;
pub use laws::sessions_show_runs;
pub use sessions::session;
