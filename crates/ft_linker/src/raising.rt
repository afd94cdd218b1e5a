//! Raises the numbers in a module's rows to what they are in the linked object.
ghost use Rattle.std.specs.Prelude.{◌≡◌, ◌<◌, ◌^◌, ◌+◌};
ghost use Rattle.ft_modules.specs.Linked.{raised_block, raised_instr, raised_node, raised_pair, raised_row, raised_subst};
ghost use Rattle.ft_linker.specs.Raises.{CanRaise, CanRaiseBlock, CanRaiseNode, CanRaisePair, CanRaiseRow, CanRaiseSubst};

use ft_isa::{Base, Basic, Coloured, Instr, Subst};
use ft_modules::Before;
use ft_static::{Node, Shape};
use ft_types::{Block, RegType};

/// A module's node, as it is in the linked object.
pub fn raise_node(k: u32, node: Node) -> Node
    requires { CanRaiseNode k node }
    ensures { result ≡ raised_node k node }
{
    let shape = match node.shape {
        Shape::Op { op, a, b } => Shape::Op {
            op,
            a: k + a,
            b: k + b,
        },
        Shape::Sel { memory, at } => Shape::Sel {
            memory: k + memory,
            at: k + at,
        },
        Shape::Upd { memory, at, value } => Shape::Upd {
            memory: k + memory,
            at: k + at,
            value: k + value,
        },
        Shape::Rem { a, length } => Shape::Rem { a: k + a, length },
        other => other,
    };
    Node {
        scope: node.scope,
        shape,
    }
}

/// A module's register row, as it is in the linked object.
pub fn raise_row(k: u32, row: RegType) -> RegType
    requires { CanRaiseRow k row }
    ensures { result ≡ raised_row k row }
{
    RegType {
        reg: row.reg,
        colour: row.colour,
        basic: row.basic,
        expr: k + row.expr,
    }
}

/// A module's queue row, as it is in the linked object.
pub fn raise_pair(k: u32, pair: (u32, u32)) -> (u32, u32)
    requires { CanRaisePair k pair }
    ensures { result ≡ raised_pair k pair }
{
    (k + pair.0, k + pair.1)
}

/// A module's block, as it is in the linked object.
pub fn raise_block(k: Before, block: Block) -> Block
    requires { CanRaiseBlock k block }
    ensures { result ≡ raised_block k block }
{
    Block {
        start: k.instrs + block.start,
        code_type: k.types + block.code_type,
    }
}

/// A module's substitution, as it is in the linked object.
fn raise_subst(k: Before, subst: Subst) -> Subst
    requires { CanRaiseSubst k subst }
    ensures { result ≡ raised_subst k subst }
{
    Subst {
        first: k.substs + subst.first,
        past: k.substs + subst.past,
        memory: k.nodes + subst.memory,
    }
}

/// A module's instruction, as it is in the linked object before moves are changed.
pub fn raise_instr(k: Before, instr: Instr) -> Instr
    requires { CanRaise k instr }
    ensures { result ≡ raised_instr k instr }
{
    match instr {
        Instr::Mov {
            rd,
            value,
            basic: Basic {
                refs: 0,
                base: Base::Code(code_type),
            },
        } => Instr::Mov {
            rd,
            value: Coloured {
                colour: value.colour,
                word: u64::from(k.instrs) + value.word,
            },
            basic: Basic {
                refs: 0,
                base: Base::Code(k.types as u16 + code_type),
            },
        },
        Instr::JmpB { rd, subst } => Instr::JmpB {
            rd,
            subst: raise_subst(k, subst),
        },
        Instr::BzB { rz, rd, subst } => Instr::BzB {
            rz,
            rd,
            subst: raise_subst(k, subst),
        },
        other => other,
    }
}
