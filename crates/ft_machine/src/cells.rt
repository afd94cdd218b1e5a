//! The words of the cells, in a slice, which contracts see as a finite map from addresses.
ghost use Rattle.std.specs.Prelude.{◌≡◌, ◌<◌, ℕ, Decides, IsTrue, length, slice_get, slice_set};
ghost use Rattle.ft_semantics.specs.State.{is_cell, cell_at, with_cell};
ghost use Rattle.ft_machine.specs.Arrays.{cells_of};

use ft_isa::FIRST_CELL;

/// The word at an index of a list of words, if there is one.
#[inline(always)]
fn word_at(words: &[u64], k: usize) -> Option<u64>
    ensures { result ≡ slice_get words.now k }
{
    words.get(k).copied()
}

/// Puts a word at an index of a list of words.
#[inline(always)]
fn put_word(words: &mut [u64], k: usize, word: u64)
    requires { k < length words.old }
    ensures { words.new ≡ slice_set words.old k word }
{
    words[k] = word;
}

/// The word of the cell at an address, if there is one.
#[inline(always)]
pub fn cell_at(words: &[u64], addr: u64) -> Option<u64>
    ensures { result ≡ cell_at (cells_of words.now) addr }
{
    if addr < FIRST_CELL {
        return None;
    }
    word_at(words, (addr - FIRST_CELL) as usize)
}

/// Whether a cell has this address.
#[inline(always)]
pub fn has_cell(words: &[u64], addr: u64) -> bool
    ensures { result ≡ is_cell (cells_of words.now) addr }
{
    cell_at(words, addr).is_some()
}

/// Puts a word into the cell at an existing address.
#[inline(always)]
pub fn put_cell(words: &mut [u64], addr: u64, word: u64)
    requires { IsTrue (is_cell (cells_of words.old) addr) }
    ensures { cells_of words.new ≡ with_cell (cells_of words.old) addr word }
{
    put_word(words, (addr - FIRST_CELL) as usize, word);
}

/// Copies the words of other cells at the same addresses.
pub(crate) fn copy_cells(words: &mut [u64], other: &[u64])
    requires { (a : ℕ) → is_cell (cells_of words.old) a ≡ is_cell (cells_of other.now) a }
    ensures { words.new ≡ other.now }
{
    words.copy_from_slice(other);
}

/// Whether other cells have the same addresses and words.
pub(crate) fn same_cells(words: &[u64], other: &[u64]) -> bool
    ensures { Decides result (cells_of words.now ≡ cells_of other.now) }
{
    words == other
}
