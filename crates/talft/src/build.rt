//! The build of the installed program: its version, commit and kit.
use ft_edge::{FolderShelf, Load, Shelf};
use std::alloc::Global;
use std::fs;
use std::rt::Files;

/// The system's link to the running program's file.
const OWN_FILE: &str = "/proc/self/exe";

/// The file that describes an installation's build, relative to the folder that contains `bin`.
const BUILD: &str = "share/doc/talft/BUILD";

/// The maximum size of that file in bytes.
const LIMIT: usize = 1024;

/// The name of the file that describes the running program's build.
fn file_of_build<R: Files + AllocGlobal>(rt: &R) -> Option<String> {
    let own = fs::read_link(rt, OWN_FILE).ok()?;
    let (bin, _) = own.as_str().rsplit_once('/')?;
    let (above, _) = bin.rsplit_once('/')?;
    format!(in rt.alloc(); "{above}/{BUILD}").ok()
}

/// The line with the version, commit and kit, including its line feed; `None` if it cannot be found.
pub(crate) fn line_of_build<R: Files + AllocGlobal>(rt: &R, alloc: Global) -> Option<String> {
    let name = file_of_build(rt)?;
    let mut bytes = Vec::new(alloc);
    let mut shelf = FolderShelf::new(rt.clone().ok()?, alloc);
    let Ok(Load::Whole) = shelf.load(name.as_str(), LIMIT, &mut bytes) else {
        return None;
    };
    let (line, _) = str::from_utf8(bytes.as_slice()).ok()?.split_once('\n')?;
    format!(in alloc; "{line}\n").ok()
}
