//! Three-address steps over register pairs.
use ft_isa::Op;

/// A step of a flow. The numbers `p`, `q`, `s`, `i` and `spare` name register pairs below 32; a step with a `spare`
/// leaves 0 in that pair. A cell and a block are named by their numbers, and the cells of an array by the first one and
/// the number of cells, 1 to 1,024.
#[derive(Clone, Copy, Debug, PartialEq, Eq)]
pub enum Step3 {
    /// Pair `p` gets a word.
    Put {
        p: u8,
        word: u64,
    },
    /// Pair `p` gets the word of pair `q`.
    Copy {
        p: u8,
        q: u8,
    },
    /// Pair `p` gets the result of the operation on the words of the pairs `q` and `s`.
    Op {
        op: Op,
        p: u8,
        q: u8,
        s: u8,
    },
    /// Pair `p` gets the word of a cell.
    Load {
        p: u8,
        cell: u32,
    },
    /// A cell gets the word of pair `q`; this is an output.
    Store {
        cell: u32,
        q: u8,
        spare: u8,
    },
    /// Pair `p` gets the word of cell `first` + (the word of pair `q` modulo `length`).
    LoadAt {
        p: u8,
        q: u8,
        first: u32,
        length: u32,
    },
    /// Cell `first` + (the word of pair `i` modulo `length`) gets the word of pair `q`; this is an output.
    StoreAt {
        first: u32,
        length: u32,
        i: u8,
        q: u8,
        spare: u8,
    },
    /// Goes to block `to` if pair `q` holds 0, otherwise to the next step.
    Exit {
        q: u8,
        spare: u8,
        to: u32,
    },
    /// Goes to block `to`.
    Go {
        spare: u8,
        to: u32,
    },
    /// Ends the run.
    Stop,
}
