//! Where the sections begin.
ghost use Rattle.ft_format.specs.Broken.{IsSmall};

use crate::header::Header;

/// Where each section after the cells begins, and where the last one ends.
#[derive(Clone, Copy)]
pub struct Places {
    pub nodes: usize,
    pub types: usize,
    pub regs: usize,
    pub queue: usize,
    pub blocks: usize,
    pub instrs: usize,
    pub substs: usize,
    pub names: usize,
    pub end: usize,
}

impl Places {
    ghost use Rattle.ft_format.specs.Places.{ArePlaces};

    /// Computes the places from the counts of a header.
    pub fn of(header: Header) -> Places
        requires { IsSmall header }
        ensures { ArePlaces header result }
    {
        let nodes = 48 + 16 * header.cells as usize;
        let types = nodes + 16 * header.nodes as usize;
        let regs = types + 16 * header.types as usize;
        let queue = regs + 12 * header.regs as usize;
        let blocks = queue + 8 * header.queue as usize;
        let instrs = blocks + 8 * header.blocks as usize;
        let substs = instrs + 16 * header.instrs as usize;
        let names = substs + 4 * header.substs as usize;
        let end = names + header.names as usize;
        Places {
            nodes,
            types,
            regs,
            queue,
            blocks,
            instrs,
            substs,
            names,
            end,
        }
    }
}
