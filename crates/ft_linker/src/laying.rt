//! Lays the tables of modules one after another.
ghost use Rattle.std.specs.Prelude.{◌≡◌, [], IfOk, OnOk};
ghost use Rattle.ft_types.specs.Spellable.{IsSpellable};
ghost use Rattle.ft_modules.specs.Linked.{after_module};

use crate::rows::{lay_blocks, lay_instrs, lay_nodes, lay_substs, lay_types};
use ft_isa::Instr;
use ft_modules::Before;
use ft_static::Node;
use ft_types::{Block, CodeType, Object};
use std::alloc::{AllocError, Global};

/// The concatenated tables of modules, with their numbers raised, and the totals before each module.
#[derive(Drop)]
pub struct Laid {
    pub starts: Vec<Before>,
    pub nodes: Vec<Node>,
    pub types: Vec<CodeType>,
    pub blocks: Vec<Block>,
    pub instrs: Vec<Instr>,
    pub substs: Vec<u32>,
}

/// The totals before the first module: all 0.
const NOTHING: Before = Before {
    nodes: 0,
    types: 0,
    blocks: 0,
    instrs: 0,
    substs: 0,
};

impl Laid {
    ghost use Rattle.ft_linker.specs.Tables.{AddsModule, AreLaid, Fits, HasTypedMoves};

    /// Empty tables.
    #[tactic(auto, unfolding(ft_modules::specs::Linked::laid))]
    fn new(alloc: Global) -> Laid
        ensures { AreLaid [] result }
    {
        Laid {
            starts: Vec::new(alloc),
            nodes: Vec::new(alloc),
            types: Vec::new(alloc),
            blocks: Vec::new(alloc),
            instrs: Vec::new(alloc),
            substs: Vec::new(alloc),
        }
    }

    /// Appends a module's tables.
    fn add(&mut self, alloc: Global, k: Before, object: &Object) -> Result<(), AllocError>
        requires spelled { IsSpellable object.now }
        requires typed { HasTypedMoves object.now }
        requires fits { Fits k object.now }
        ensures { OnOk result (AddsModule self.old self.new k object.now) }
    {
        self.starts.push(k)?;
        lay_nodes(&mut self.nodes, k.nodes, &object.nodes)?;
        lay_types(alloc, &mut self.types, k.nodes, &object.types)?;
        lay_blocks(&mut self.blocks, k, &object.blocks)?;
        lay_instrs(&mut self.instrs, k, &object.instrs)?;
        lay_substs(&mut self.substs, k.nodes, &object.substs)?;
        Ok(())
    }
}

ghost use Rattle.ft_linker.specs.Tables.{AreLaid, CanBeLaid, Fits};

/// The totals before the next module.
fn after(k: Before, object: &Object) -> Before
    requires { Fits k object.now }
    ensures { result ≡ after_module k object.now }
{
    Before {
        nodes: k.nodes + object.nodes.len() as u32,
        types: k.types + object.types.len() as u32,
        blocks: k.blocks + object.blocks.len() as u32,
        instrs: k.instrs + object.instrs.len() as u32,
        substs: k.substs + object.substs.len() as u32,
    }
}

/// Concatenates the modules' tables and raises their numbers.
pub fn lay(alloc: Global, objects: &[Object]) -> Result<Laid, AllocError>
    requires { CanBeLaid objects.now }
    ensures { IfOk result (λ l. AreLaid objects.now l) }
{
    let mut laid = Laid::new(alloc);
    let mut start = NOTHING;
    for m in 0..objects.len() {
        let object = &objects[m];
        laid.add(alloc, start, object)?;
        start = after(start, object);
    }
    Ok(laid)
}
