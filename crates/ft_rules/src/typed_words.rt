//! The types of words.
ghost use Rattle.std.specs.Prelude.{◌≡◌, ◌<◌, length};
ghost use Rattle.ft_types.specs.Spellable.{IsSpellable};
ghost use Rattle.ft_typing.specs.TypedWord.{block_at, cell_type, has_type, has_type_over};

use ft_isa::{Base, Basic, FIRST_CELL};
use ft_types::{Block, Program};
use ft_typing::same_basic;

/// Whether a word has a basic type: every word has `int`, the code address of a block's first
/// instruction has that block's code type, and the address of a cell has `ref` of the cell's type.
#[tactic(auto, unfolding(ft_typing::specs::TypedWord::has_type))]
pub fn has_type<P: Program>(program: &P, word: u64, basic: Basic) -> bool
    requires { IsSpellable (P.object program.now) }
    ensures { result ≡ has_type (P.object program.now) word basic }
{
    if basic.refs == 0 {
        return has_base(program, word, basic.base);
    }
    let referred = Basic {
        refs: basic.refs - 1,
        base: basic.base,
    };
    match cell_type(program, word) {
        Some(found) => same_basic(found, referred),
        None => false,
    }
}

/// Whether a word has the basic type of a base with no `ref`.
fn has_base<P: Program>(program: &P, word: u64, base: Base) -> bool
    requires { IsSpellable (P.object program.now) }
    ensures { result ≡ has_type_over (P.object program.now) word 0 base }
{
    match base {
        Base::Int => true,
        Base::Code(t) => match block_at(program, word) {
            Some(block) => block.code_type == t as u32,
            None => false,
        },
    }
}

/// The basic type of the cell at an address; `None` exactly when there is none.
#[tactic(auto, unfolding(ft_typing::specs::TypedWord::cell_of))]
fn cell_type<P: Program>(program: &P, address: u64) -> Option<Basic>
    requires { IsSpellable (P.object program.now) }
    ensures { result ≡ cell_type (P.object program.now) address }
{
    if address < FIRST_CELL {
        return None;
    }
    let k = address - FIRST_CELL;
    if k >= program.counts().cells as u64 {
        return None;
    }
    Some(program.cell(k as u32).basic)
}

/// The block whose first instruction is at a code address; `None` exactly when there is none. Blocks begin in
/// increasing order, so this is a binary search.
fn block_at<P: Program>(program: &P, address: u64) -> Option<Block>
    requires { IsSpellable (P.object program.now) }
    ensures { result ≡ block_at (P.object program.now) address }
{
    let mut low = 0;
    let mut high = program.counts().blocks;
    while low < high {
        let middle = low + (high - low) / 2;
        let block = program.block(middle);
        let start = block.start as u64 + 1;
        if start == address {
            return Some(block);
        }
        if start < address {
            low = middle + 1;
        } else {
            high = middle;
        }
    }
    None
}
