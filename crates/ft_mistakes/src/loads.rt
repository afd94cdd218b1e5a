//! Reads files again.
use ft_edge::{Load, LoadFault, Shelf};
use ft_isa::NoMemory;
use std::alloc::Global;

/// The maximum size of an object in bytes.
pub const OBJECT_LIMIT: usize = 67_108_864;

/// The maximum size of a source in bytes.
pub const SOURCE_LIMIT: usize = 1_048_576;

/// The bytes of a file of at most `limit` bytes; `None` if it is longer or cannot be read.
pub fn load<S: Shelf>(
    alloc: Global,
    name: &str,
    limit: usize,
    shelf: &mut S,
) -> Result<Option<Vec<u8>>, NoMemory> {
    let mut bytes = Vec::new(alloc);
    match shelf.load(name, limit, &mut bytes) {
        Ok(Load::Whole) => Ok(Some(bytes)),
        Ok(Load::TooLong) | Err(LoadFault::Failed) => Ok(None),
        Err(LoadFault::NoMemory) => Err(NoMemory),
    }
}

/// The bytes of a file that was loaded.
pub fn slice(bytes: &Option<Vec<u8>>) -> Option<&[u8]> {
    match bytes {
        Some(bytes) => Some(bytes.as_slice()),
        None => None,
    }
}
