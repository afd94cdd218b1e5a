//! What the name of a file that could not be read refers to.

/// What the name of a file that could not be read refers to.
#[derive(Clone, Copy, Debug, PartialEq, Eq)]
pub enum Found {
    /// Nothing.
    Missing,
    /// A folder.
    Folder,
    /// A file, or a device, that this user may read.
    File,
    /// A file that this user may not read.
    Forbidden,
    /// Something else, or unknown.
    Unknown,
}

impl Found {
    /// Why the file cannot be read.
    pub(crate) fn words(self) -> &'static str {
        match self {
            Found::Missing => "no such file",
            Found::Folder => "is a folder",
            Found::Forbidden => "permission denied",
            Found::File | Found::Unknown => "cannot be read",
        }
    }

    /// Why standard input cannot be read.
    pub(crate) fn words_of_input(self) -> &'static str {
        match self {
            Found::Missing => "error: standard input is closed\n",
            Found::Folder => "error: standard input is a folder\n",
            _ => "error: standard input cannot be read\n",
        }
    }
}

/// Looks up what a name refers to.
pub trait Look {
    /// What a name refers to.
    fn look(&self, name: &str) -> Found;

    /// Whether standard output is the file with this name.
    fn is_output(&self, name: &str) -> bool;

    /// What standard input is.
    fn input(&self) -> Found;

    /// The name under which standard input can be read again from its beginning; `None` if it cannot.
    fn script(&self) -> Option<&'static str>;
}
