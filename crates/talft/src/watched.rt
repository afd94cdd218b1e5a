//! Watches standard output: why a write failed, and whether an object goes to a terminal.
ghost use Rattle.std.specs.Prelude.{◌≡◌};

use std::io;
use std::io::{Error, ErrorKind, Write};

/// The first part of the message before an object goes to a terminal. The form of the command follows.
const BINARY: &str = "talft: note: an object is binary: redirect it to a file, as in `talft ";

/// The last part of that message, after the form of the command.
const REDIRECTED: &str = " >FILE.obj`\n";

/// What an object begins with.
const MAGIC: &[u8] = b"TALFT";

/// The system's error number for a closed stream.
const CLOSED: i32 = 9;

/// A writer that remembers why its last write failed. Before an object goes to a terminal, it warns that objects are
/// binary.
#[derive(Drop)]
pub(crate) struct Watched<'r, R: Eprint, W: Write> {
    rt: &'r R,
    out: W,
    form: &'static str,
    is_terminal: bool,
    has_shown_object: bool,
    reason: &'static str,
}

/// Why a write failed, in words.
fn reason_of(error: &Error) -> &'static str {
    match (error.kind(), error.raw_os_error()) {
        (ErrorKind::StorageFull | ErrorKind::QuotaExceeded, _) =>
            ": no space is left on the device",
        (ErrorKind::FileTooLarge, _) => ": the file would be too large",
        (ErrorKind::BrokenPipe, _) => ": its reader has gone away",
        (_, Some(CLOSED)) => ": standard output is closed",
        _ => "",
    }
}

impl<'r, R: Eprint, W: Write> Watched<'r, R, W> {
    /// Wraps a writer for a command of this form; `is_terminal` says whether the writer leads to a terminal.
    pub fn new(rt: &'r R, out: W, form: &'static str, is_terminal: bool) -> Watched<'r, R, W> {
        Watched {
            rt,
            out,
            form,
            is_terminal,
            has_shown_object: false,
            reason: "",
        }
    }

    /// Whether an object went to a terminal.
    pub fn has_shown_object(&self) -> bool {
        self.has_shown_object
    }

    /// Why the last write failed, after a colon; empty if that is not known.
    pub fn reason(&self) -> &'static str {
        self.reason
    }
}

impl<R: Eprint, W: Write> Write for Watched<'_, R, W> {
    ghost contents = { λ watched. W.contents watched.out };

    fn write(&mut self, buf: &[u8]) -> io::Result<usize> {
        if self.is_terminal && buf.starts_with(MAGIC) {
            self.has_shown_object = true;
            let _ = self.rt.eprint(BINARY);
            let _ = self.rt.eprint(self.form);
            let _ = self.rt.eprint(REDIRECTED);
        }
        match self.out.write(buf) {
            Ok(count) => Ok(count),
            Err(error) => {
                self.reason = reason_of(&error);
                Err(error)
            }
        }
    }

    fn flush(&mut self) -> io::Result<()> {
        self.out.flush()
    }
}
