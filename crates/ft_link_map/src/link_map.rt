//! Link maps: the modules by their files, and what they export and import.
use ft_types::Table;

/// An export or an import: a module and one of its blocks, both numbered from 0, the name that the line gives the block
/// (1 to 32 bytes), and the line of the map, counted from 1.
#[derive(Drop)]
pub struct Ask {
    pub module: u32,
    pub block: u32,
    pub name: Table<u8>,
    pub line: u32,
}

/// The modules' files in order, 1 to 64 of them, and the exports and the imports, both in the order of their lines.
#[derive(Drop)]
pub struct LinkMap {
    pub files: Table<Table<u8>>,
    pub exports: Table<Ask>,
    pub imports: Table<Ask>,
}
