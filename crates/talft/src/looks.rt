//! Looks up what names refer to in the system's folders.
use crate::streams::STANDARD_OUTPUT;
use ft_explain::{Found, Look};
use std::fs;
use std::fs::File;
use std::io::ErrorKind;
use std::os::unix::fs::MetadataExt;
use std::rt::Files;

/// The folders of the system.
#[derive(Drop)]
pub(crate) struct Folders<'r, R: Files> {
    pub rt: &'r R,
}

/// Whether reading a file is not permitted.
fn is_forbidden<R: Files>(rt: &R, name: &str) -> bool {
    match File::open(rt, name) {
        Ok(_) => false,
        Err(error) => error.kind() == ErrorKind::PermissionDenied,
    }
}

/// What a name refers to.
fn found<R: Files>(rt: &R, name: &str) -> Found {
    match fs::metadata(rt, name) {
        Ok(found) if found.is_dir() => Found::Folder,
        // Opening a pipe that has no writer would wait for one.
        Ok(found) if found.is_file() && is_forbidden(rt, name) => Found::Forbidden,
        Ok(_) => Found::File,
        Err(error) => match error.kind() {
            ErrorKind::NotFound => Found::Missing,
            ErrorKind::PermissionDenied => Found::Forbidden,
            _ => Found::Unknown,
        },
    }
}

/// Whether standard output is the file with this name.
fn is_output<R: Files>(rt: &R, name: &str) -> bool {
    match (fs::metadata(rt, name), fs::metadata(rt, STANDARD_OUTPUT)) {
        (Ok(file), Ok(output)) => {
            output.is_file() && file.dev() == output.dev() && file.ino() == output.ino()
        }
        _ => false,
    }
}

/// The name of standard input as a file.
const STANDARD_INPUT: &str = "/dev/stdin";

impl<R: Files> Look for Folders<'_, R> {
    fn look(&self, name: &str) -> Found {
        found(self.rt, name)
    }

    fn is_output(&self, name: &str) -> bool {
        is_output(self.rt, name)
    }

    fn input(&self) -> Found {
        found(self.rt, STANDARD_INPUT)
    }

    fn script(&self) -> Option<&'static str> {
        match fs::metadata(self.rt, STANDARD_INPUT) {
            Ok(found) if found.is_file() => Some(STANDARD_INPUT),
            _ => None,
        }
    }
}
