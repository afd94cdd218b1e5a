//! The versions of the object format, and what differs between them.
ghost use Rattle.std.specs.Prelude.{◌≡◌};

/// A version of the object format. The second extends the first.
#[derive(Clone, Copy, Debug, PartialEq, Eq)]
pub enum Version {
    /// Version 1.
    First,
    /// Version 2.
    Second,
}

impl Version {
    ghost use Rattle.ft_format.specs.Versions.{magic, last_op, last_node_kind, last_instr_kind, longest_name, most_name_bytes};

    /// The magic number and the version: `TALFT`, then the version number in three bytes.
    pub fn magic(self) -> u64
        ensures { result ≡ magic self }
    {
        match self {
            Version::First => 0x54414c4654000001,
            Version::Second => 0x54414c4654000002,
        }
    }

    /// The largest operation code.
    pub fn last_op(self) -> u32
        ensures { result ≡ last_op self }
    {
        match self {
            Version::First => 4,
            Version::Second => 9,
        }
    }

    /// The largest code of a node kind.
    pub fn last_node_kind(self) -> u8
        ensures { result ≡ last_node_kind self }
    {
        match self {
            Version::First => 5,
            Version::Second => 6,
        }
    }

    /// The largest code of an instruction kind.
    pub fn last_instr_kind(self) -> u8
        ensures { result ≡ last_instr_kind self }
    {
        match self {
            Version::First => 7,
            Version::Second => 8,
        }
    }

    /// The maximum size of a name in bytes.
    pub fn longest_name(self) -> u8
        ensures { result ≡ longest_name self }
    {
        match self {
            Version::First => 32,
            Version::Second => 40,
        }
    }

    /// The maximum size of all names in bytes.
    pub fn most_name_bytes(self) -> u32
        ensures { result ≡ most_name_bytes self }
    {
        match self {
            Version::First => 32768,
            Version::Second => 40960,
        }
    }
}
