//! The outside world: files on a shelf, a script to read and an output to write, each with a count of failures.
//!
//! The crate promises how each call changes known content; that a load, a put or a take fails only if its count of
//! failures rises or memory runs out; and exactly what each in-memory implementation returns. Its definitions:
//! `specs/Causes.antt` and `specs/Loads.antt` for the traits, `specs/Calls.antt` and the `Memory` files for the
//! in-memory implementations, and `specs/Streams.antt`, `specs/Heard.antt` and `specs/Recording.antt` for those over the
//! system.
#![tactic(auto)]

mod counter;
mod failed;
mod folder_shelf;
mod gathering_sink;
mod gathers;
mod mem_shelf;
mod mem_sink;
mod mem_source;
mod null_sink;
mod opened_files;
mod opens;
mod putting;
mod recorded;
mod shelf;
mod sink;
mod source;
mod stdin_source;
mod stdout_sink;
mod sure_source;
mod system;
mod writing;

pub use failed::Failed;
pub use folder_shelf::FolderShelf;
pub use gathering_sink::GatheringSink;
pub use gathers::Gathers;
pub use mem_shelf::MemShelf;
pub use mem_sink::MemSink;
pub use mem_source::MemSource;
pub use null_sink::NullSink;
pub use putting::put_line;
pub use recorded::Recorded;
pub use shelf::{Load, LoadFault, Shelf};
pub use sink::Sink;
pub use source::Source;
pub use stdin_source::StdinSource;
pub use stdout_sink::StdoutSink;
pub use sure_source::SureSource;
