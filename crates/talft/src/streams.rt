//! Whether the standard streams are terminals or pipes.
use std::fs;
use std::rt::Files;

/// The system's link to standard output.
pub(crate) const STANDARD_OUTPUT: &str = "/proc/self/fd/1";

/// The system's link to standard input.
pub(crate) const STANDARD_INPUT: &str = "/proc/self/fd/0";

/// The system's link to standard error.
pub(crate) const STANDARD_ERROR: &str = "/proc/self/fd/2";

/// What the names of terminals begin with.
const TERMINALS: &[&str] = &["/dev/pts/", "/dev/tty", "/dev/console", "/dev/hvc"];

/// Whether a standard stream is a terminal, judging by its name.
pub(crate) fn is_terminal<R: Files + AllocGlobal>(rt: &R, stream: &str) -> bool {
    let Ok(name) = fs::read_link(rt, stream) else {
        return false;
    };
    for terminal in TERMINALS {
        if name.as_str().starts_with(*terminal) {
            return true;
        }
    }
    false
}

/// Whether standard output is a pipe, judging by its name. Writing to a pipe fails once nobody reads it any more.
pub(crate) fn is_pipe<R: Files + AllocGlobal>(rt: &R) -> bool {
    match fs::read_link(rt, STANDARD_OUTPUT) {
        Ok(name) => name.as_str().starts_with("pipe:"),
        Err(_) => false,
    }
}
