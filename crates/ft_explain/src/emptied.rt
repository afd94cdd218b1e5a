//! Files that the shell emptied because standard output was redirected to them, as in `talft asm a.asm >a.asm`.
use crate::links::{MODULE_LIMIT, file_of};
use crate::look::Look;
use ft_edge::Shelf;
use ft_isa::NoMemory;
use ft_mistakes::{Page, begins_as_object, load};

/// The maximum size of what a call wrote to such a file.
const LIMIT: usize = 67_108_864;

/// What a call wrote, and how to report that this went to one of the call's own files.
#[derive(Clone, Copy)]
pub(crate) struct Wrote<'l> {
    /// The last line that it wrote.
    pub line: &'l [u8],
    /// Whether the output may be an object, because the call was given a source.
    pub is_source: bool,
    /// What to call the message: an error or a note.
    pub called: &'static str,
}

impl Wrote<'_> {
    /// Whether a file that consists of these bytes holds no more than what the call wrote.
    fn is_all_of(self, bytes: &[u8]) -> bool {
        let is_object = self.is_source && begins_as_object(bytes);
        bytes.is_empty() || bytes == self.line || is_object
    }
}

/// Whether standard output is the file with this name, and the file holds no more than what the call wrote.
fn is_emptied<S: Shelf, L: Look>(
    page: &Page,
    name: &str,
    wrote: Wrote<'_>,
    shelf: &mut S,
    look: &L,
) -> Result<bool, NoMemory> {
    if !look.is_output(name) {
        return Ok(false);
    }
    match load(page.alloc(), name, LIMIT, shelf)? {
        Some(bytes) => Ok(wrote.is_all_of(bytes.as_slice())),
        None => Ok(false),
    }
}

/// If the shell emptied a file of a call, says so; otherwise returns false.
pub(crate) fn explain_emptied<S: Shelf, L: Look>(
    page: &mut Page,
    name: &str,
    wrote: Wrote<'_>,
    shelf: &mut S,
    look: &L,
) -> Result<bool, NoMemory> {
    if !is_emptied(page, name, wrote, shelf, look)? {
        return Ok(false);
    }
    let called = wrote.called;
    page.name(name)?;
    page.say(format_args!(
        ": {called}: standard output is this file, which the shell emptied: give the output another name\n"
    ))?;
    Ok(true)
}

/// If the shell emptied the file of a module in a link map, says so; otherwise returns false.
pub(crate) fn explain_emptied_module<S: Shelf, L: Look>(
    page: &mut Page,
    map: Option<&[u8]>,
    wrote: Wrote<'_>,
    shelf: &mut S,
    look: &L,
) -> Result<bool, NoMemory> {
    for module in 0..MODULE_LIMIT {
        if let Some(file) = file_of(map, module)
            && explain_emptied(page, file, wrote, shelf, look)?
        {
            return Ok(true);
        }
    }
    Ok(false)
}
