//! Counts the rows of all modules and tests them against the limits of one object.
ghost use Rattle.std.specs.Prelude.{◌≡◌, ◌<◌, ◌^◌, [], ◌∷◌, ◌++◌, List};
ghost use Rattle.ft_types.specs.Spellable.{IsSpellable, queue_row_count, reg_row_count};
ghost use Rattle.ft_types.specs.declared.object.Object.{Object as Module};

use ft_types::{CodeType, Object};

/// How many rows of each kind the modules have in all.
#[derive(Clone, Copy)]
pub struct Totals {
    pub nodes: u32,
    pub types: u32,
    pub reg_rows: u32,
    pub queue_rows: u32,
    pub blocks: u32,
    pub instrs: u32,
    pub substs: u32,
}

/// How many register rows code types have.
fn reg_row_count(types: &[CodeType]) -> usize
    requires { reg_row_count types.now < 2 ^ 32 }
    ensures { result ≡ reg_row_count types.now }
{
    types.iter().map(|code_type| code_type.regs.len()).sum()
}

/// How many queue rows code types have.
fn queue_row_count(types: &[CodeType]) -> usize
    requires { queue_row_count types.now < 2 ^ 32 }
    ensures { result ≡ queue_row_count types.now }
{
    types.iter().map(|code_type| code_type.queue.len()).sum()
}

impl Totals {
    ghost use Rattle.ft_linker.specs.Totals.{HasFew, has_few, totals_of};

    /// The totals of no modules.
    pub fn none() -> Totals
        ensures { result ≡ totals_of [] }
    {
        Totals {
            nodes: 0,
            types: 0,
            reg_rows: 0,
            queue_rows: 0,
            blocks: 0,
            instrs: 0,
            substs: 0,
        }
    }

    /// The totals after one more module.
    pub fn with(self, object: &Object) -> Totals
        requires spelled { IsSpellable object.now }
        requires few { HasFew self }
        ensures { (ms : List Module) → self ≡ totals_of ms → result ≡ totals_of (ms ++ object.now ∷ []) }
    {
        let types = object.types.as_slice();
        let reg_rows = reg_row_count(types) as u32;
        let queue_rows = queue_row_count(types) as u32;
        Totals {
            nodes: self.nodes + object.nodes.len() as u32,
            types: self.types + types.len() as u32,
            reg_rows: self.reg_rows + reg_rows,
            queue_rows: self.queue_rows + queue_rows,
            blocks: self.blocks + object.blocks.len() as u32,
            instrs: self.instrs + object.instrs.len() as u32,
            substs: self.substs + object.substs.len() as u32,
        }
    }

    /// Whether the totals are within their limits.
    pub fn are_few(self) -> bool
        ensures { result ≡ has_few self }
    {
        self.nodes <= 1_048_576
            && self.types <= 4096
            && self.reg_rows <= 262_144
            && self.queue_rows <= 32_768
            && self.blocks <= 65_536
            && self.instrs <= 65_536
            && self.substs <= 1_048_576
    }
}
