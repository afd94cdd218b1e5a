//! The tables built from the lines so far.
ghost use Rattle.std.specs.Prelude.{◌≡◌, IfOk};
ghost use Rattle.ft_asm.specs.Drafts as drafts;
ghost use Rattle.std.specs.Prelude.{[]};
ghost use Rattle.ft_asm.specs.declared.line.Line.TheVariants as lines;
ghost use Rattle.ft_asm.specs.Held.{Holds, Adds, is_block, Closes, PutsCode, Ends};
ghost use Rattle.ft_asm.specs.Lines.{placed};

use crate::line::{Code, Line};
use ft_isa::{Instr, NoMemory, Subst};
use ft_static::Node;
use ft_types::{Block, Cell, CodeType, Object, RegType, Table};
use std::alloc::Global;
use std::mem;

/// The part of the text in which the lines so far end.
#[derive(Clone, Copy)]
pub(crate) enum Place {
    /// Before the first code type.
    Start,
    /// In a code type.
    InType { ints: u8, memory: u32 },
    /// In a block.
    InBlock,
    /// After the entry block.
    Done(u32),
}

/// The tables built from the lines so far.
#[derive(Drop)]
pub(crate) struct Draft {
    place: Place,
    cells: Vec<Cell>,
    nodes: Vec<Node>,
    types: Vec<CodeType>,
    regs: Vec<RegType>,
    queue: Vec<(u32, u32)>,
    blocks: Vec<Block>,
    instrs: Vec<Instr>,
    substs: Vec<u32>,
}

/// The instruction, with rows `first` up to `past` as those of its substitution, if it carries one.
fn with_places(instr: Instr, first: u32, past: u32) -> Instr
    ensures { result ≡ placed first past instr }
{
    match instr {
        Instr::JmpB { rd, subst } => {
            let subst = Subst {
                first,
                past,
                memory: subst.memory,
            };
            Instr::JmpB { rd, subst }
        }
        Instr::BzB { rz, rd, subst } => {
            let subst = Subst {
                first,
                past,
                memory: subst.memory,
            };
            Instr::BzB { rz, rd, subst }
        }
        other => other,
    }
}

impl Draft {
    /// A draft before the first line.
    pub(crate) fn new(alloc: Global) -> Draft
        ensures { Holds result (drafts.Start [] []) }
    {
        Draft {
            place: Place::Start,
            cells: Vec::new(alloc),
            nodes: Vec::new(alloc),
            types: Vec::new(alloc),
            regs: Vec::new(alloc),
            queue: Vec::new(alloc),
            blocks: Vec::new(alloc),
            instrs: Vec::new(alloc),
            substs: Vec::new(alloc),
        }
    }

    /// Adds a cell; `false` if none is allowed here.
    fn add_cell(&mut self, cell: Cell) -> Result<bool, NoMemory>
        ensures { (d : drafts.Draft) → Holds self.old d → IfOk result (λ taken. Adds taken self.new d (lines.Cell cell)) }
    {
        let Place::Start = self.place else {
            return Ok(false);
        };
        if !self.nodes.as_slice().is_empty() {
            return Ok(false);
        }
        self.cells.push(cell).map_err(|_| NoMemory)?;
        Ok(true)
    }

    /// Adds a node; `false` if none is allowed here.
    fn add_node(&mut self, node: Node) -> Result<bool, NoMemory>
        ensures { (d : drafts.Draft) → Holds self.old d → IfOk result (λ taken. Adds taken self.new d (lines.Node node)) }
    {
        let Place::Start = self.place else {
            return Ok(false);
        };
        self.nodes.push(node).map_err(|_| NoMemory)?;
        Ok(true)
    }

    /// Ends the last code type; `false` if nothing may follow.
    fn close(&mut self, alloc: Global) -> Result<bool, NoMemory>
        ensures { (d : drafts.Draft) → Holds self.old d → IfOk result (λ going. Closes going self.new d) }
    {
        match self.place {
            Place::Start => Ok(true),
            Place::InType { ints, memory } => {
                let regs = Table::from_vec(mem::replace(&mut self.regs, Vec::new(alloc)));
                let queue = Table::from_vec(mem::replace(&mut self.queue, Vec::new(alloc)));
                let code_type = CodeType {
                    ints,
                    regs,
                    queue,
                    memory,
                };
                self.types.push(code_type).map_err(|_| NoMemory)?;
                Ok(true)
            }
            Place::InBlock => Ok(true),
            Place::Done(_) => Ok(false),
        }
    }

    /// Whether the last line is in a block.
    fn is_in_block(&self) -> bool
        ensures { result ≡ is_block self.now.place }
    {
        matches!(self.place, Place::InBlock)
    }

    /// Adds a code type; `false` if none is allowed here.
    fn add_type(&mut self, alloc: Global, ints: u8, memory: u32) -> Result<bool, NoMemory>
        ensures { (d : drafts.Draft) → Holds self.old d → IfOk result (λ taken. Adds taken self.new d (lines.Type ints memory)) }
    {
        if self.is_in_block() {
            return Ok(false);
        }
        if !self.close(alloc)? {
            return Ok(false);
        }
        self.place = Place::InType { ints, memory };
        Ok(true)
    }

    /// Adds a register row; `false` if none is allowed here.
    fn add_reg(&mut self, row: RegType) -> Result<bool, NoMemory>
        ensures { (d : drafts.Draft) → Holds self.old d → IfOk result (λ taken. Adds taken self.new d (lines.Reg row)) }
    {
        let Place::InType { .. } = self.place else {
            return Ok(false);
        };
        if !self.queue.as_slice().is_empty() {
            return Ok(false);
        }
        self.regs.push(row).map_err(|_| NoMemory)?;
        Ok(true)
    }

    /// Adds a queue row; `false` if none is allowed here.
    fn add_pend(&mut self, address: u32, value: u32) -> Result<bool, NoMemory>
        ensures { (d : drafts.Draft) → Holds self.old d → IfOk result (λ taken. Adds taken self.new d (lines.Pend address value)) }
    {
        let Place::InType { .. } = self.place else {
            return Ok(false);
        };
        self.queue.push((address, value)).map_err(|_| NoMemory)?;
        Ok(true)
    }

    /// Adds a block; `false` if none is allowed here.
    fn add_block(&mut self, alloc: Global, code_type: u32) -> Result<bool, NoMemory>
        ensures { (d : drafts.Draft) → Holds self.old d → IfOk result (λ taken. Adds taken self.new d (lines.Block code_type)) }
    {
        if !self.close(alloc)? {
            return Ok(false);
        }
        let Ok(start) = u32::try_from(self.instrs.len()) else {
            return Err(NoMemory);
        };
        let block = Block { start, code_type };
        self.blocks.push(block).map_err(|_| NoMemory)?;
        self.place = Place::InBlock;
        Ok(true)
    }

    /// Sets the entry block; `false` if it is not allowed here.
    fn add_entry(&mut self, alloc: Global, block: u32) -> Result<bool, NoMemory>
        ensures { (d : drafts.Draft) → Holds self.old d → IfOk result (λ taken. Adds taken self.new d (lines.Entry block)) }
    {
        if !self.close(alloc)? {
            return Ok(false);
        }
        self.place = Place::Done(block);
        Ok(true)
    }

    /// Appends the rows of an instruction's line, and returns the instruction with the bounds of these rows.
    fn placed(&mut self, code: Code) -> Result<Instr, NoMemory>
        ensures { IfOk result (PutsCode self.old self.new code) }
    {
        let Ok(first) = u32::try_from(self.substs.len()) else {
            return Err(NoMemory);
        };
        self.substs.extend_from_slice(code.rows.as_slice())?;
        let Ok(past) = u32::try_from(self.substs.len()) else {
            return Err(NoMemory);
        };
        Ok(with_places(code.instr, first, past))
    }

    /// Adds an instruction; `false` if none is allowed here.
    fn add_code(&mut self, code: Code) -> Result<bool, NoMemory>
        ensures { (d : drafts.Draft) → Holds self.old d → IfOk result (λ taken. Adds taken self.new d (lines.Code code)) }
    {
        let Place::InBlock = self.place else {
            return Ok(false);
        };
        let instr = self.placed(code)?;
        self.instrs.push(instr).map_err(|_| NoMemory)?;
        Ok(true)
    }

    /// Adds a line; `false` if it is not allowed here.
    pub(crate) fn add(&mut self, alloc: Global, line: Line) -> Result<bool, NoMemory>
        ensures { (d : drafts.Draft) → Holds self.old d → IfOk result (λ taken. Adds taken self.new d line) }
    {
        match line {
            Line::Cell(cell) => self.add_cell(cell),
            Line::Node(node) => self.add_node(node),
            Line::Type { ints, memory } => self.add_type(alloc, ints, memory),
            Line::Reg(row) => self.add_reg(row),
            Line::Pend { address, value } => self.add_pend(address, value),
            Line::Block(code_type) => self.add_block(alloc, code_type),
            Line::Code(code) => self.add_code(code),
            Line::Entry(block) => self.add_entry(alloc, block),
        }
    }

    /// The object of the tables, if the entry block was given.
    pub(crate) fn finish(self) -> Option<Object>
        ensures { (d : drafts.Draft) → Holds self d → Ends result d }
    {
        let Place::Done(entry) = self.place else {
            return None;
        };
        Some(Object {
            cells: Table::from_vec(self.cells),
            nodes: Table::from_vec(self.nodes),
            types: Table::from_vec(self.types),
            blocks: Table::from_vec(self.blocks),
            instrs: Table::from_vec(self.instrs),
            substs: Table::from_vec(self.substs),
            entry,
        })
    }
}
