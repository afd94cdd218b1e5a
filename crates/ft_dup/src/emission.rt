//! The instructions of a step.
ghost use Rattle.std.specs.Prelude.{◌≡◌, ◌<◌, ◌++◌, ◌∷◌, [], length, slice_index, OnOk};
ghost use Rattle.std.specs.List.{All};
ghost use Rattle.ft_lower.specs.Size.{pairs_of};
ghost use Rattle.ft_dup.specs.Shape.{HasTarget};
ghost use Rattle.ft_dup.specs.Images.{blue_word, green_word, image, indexes, loads, moves, stores};

use crate::registers::{blue_register, green_register};
use ft_isa::{Base, Basic, Colour, Coloured, FIRST_CELL, INT, Instr, Op, REF_INT, Subst};
use ft_lower::Step3;
use std::alloc::AllocError;

/// The type that a move of a block's address claims.
const CODE_ONE: Basic = Basic {
    refs: 0,
    base: Base::Code(1),
};

/// The substitution of every blue jump and branch.
const EMPTY: Subst = Subst {
    first: 0,
    past: 0,
    memory: 0,
};

/// A word in green.
fn in_green(word: u64) -> Coloured
    ensures { result ≡ green_word word }
{
    Coloured {
        colour: Colour::Green,
        word,
    }
}

/// A word in blue.
fn in_blue(word: u64) -> Coloured
    ensures { result ≡ blue_word word }
{
    Coloured {
        colour: Colour::Blue,
        word,
    }
}

/// Appends a green instruction and its blue counterpart.
fn put_pair(code: &mut Vec<Instr>, green: Instr, blue: Instr) -> Result<(), AllocError>
    ensures { OnOk result (code.new.items ≡ code.old.items ++ green ∷ blue ∷ []) }
{
    code.push(green)?;
    code.push(blue)?;
    Ok(())
}

/// Appends moves of a word into both registers of a pair.
fn put_moves(code: &mut Vec<Instr>, pair: u8, word: u64, basic: Basic) -> Result<(), AllocError>
    requires { pair < 32 }
    ensures { OnOk result (code.new.items ≡ code.old.items ++ moves pair word basic []) }
{
    put_pair(
        code,
        Instr::Mov {
            rd: green_register(pair),
            value: in_green(word),
            basic,
        },
        Instr::Mov {
            rd: blue_register(pair),
            value: in_blue(word),
            basic,
        },
    )?;
    Ok(())
}

/// Appends the instructions that compute, in both registers of pair `p`, the address of the array cell that the word of
/// pair `q` selects.
fn put_indexes(
    code: &mut Vec<Instr>,
    p: u8,
    q: u8,
    first: u32,
    length: u32,
) -> Result<(), AllocError>
    requires p { p < 32 }
    requires q { q < 32 }
    ensures { OnOk result (code.new.items ≡ code.old.items ++ indexes p q first length []) }
{
    put_pair(
        code,
        Instr::Idx {
            rd: green_register(p),
            rs: green_register(q),
            first,
            length,
        },
        Instr::Idx {
            rd: blue_register(p),
            rs: blue_register(q),
            first,
            length,
        },
    )?;
    Ok(())
}

/// Appends a copy of pair `q` into pair `p`.
fn put_copy(code: &mut Vec<Instr>, p: u8, q: u8) -> Result<(), AllocError>
    requires p { p < 32 }
    requires q { q < 32 }
    ensures { OnOk result (code.new.items ≡ code.old.items ++ image (λ b. 0) (Step3.Copy p q)) }
{
    put_pair(
        code,
        Instr::OpWord {
            op: Op::Add,
            rd: green_register(p),
            rs: green_register(q),
            value: in_green(0),
        },
        Instr::OpWord {
            op: Op::Add,
            rd: blue_register(p),
            rs: blue_register(q),
            value: in_blue(0),
        },
    )?;
    Ok(())
}

/// Appends an operation on the pairs `q` and `s`, with its result in pair `p`.
fn put_operation(code: &mut Vec<Instr>, op: Op, p: u8, q: u8, s: u8) -> Result<(), AllocError>
    requires p { p < 32 }
    requires q { q < 32 }
    requires s { s < 32 }
    ensures { OnOk result (code.new.items ≡ code.old.items ++ image (λ b. 0) (Step3.Op op p q s)) }
{
    put_pair(
        code,
        Instr::OpReg {
            op,
            rd: green_register(p),
            rs: green_register(q),
            rt: green_register(s),
        },
        Instr::OpReg {
            op,
            rd: blue_register(p),
            rs: blue_register(q),
            rt: blue_register(s),
        },
    )?;
    Ok(())
}

/// Appends two loads, each from the address in a register of a pair into that register.
fn put_loads(code: &mut Vec<Instr>, pair: u8) -> Result<(), AllocError>
    requires { pair < 32 }
    ensures { OnOk result (code.new.items ≡ code.old.items ++ loads pair) }
{
    put_pair(
        code,
        Instr::Ld {
            colour: Colour::Green,
            rd: green_register(pair),
            rs: green_register(pair),
        },
        Instr::Ld {
            colour: Colour::Blue,
            rd: blue_register(pair),
            rs: blue_register(pair),
        },
    )?;
    Ok(())
}

/// Appends stores of pair `q` to the addresses in both registers of pair `at`.
fn put_stores(code: &mut Vec<Instr>, at: u8, q: u8) -> Result<(), AllocError>
    requires at { at < 32 }
    requires q { q < 32 }
    ensures { OnOk result (code.new.items ≡ code.old.items ++ stores at q) }
{
    put_pair(
        code,
        Instr::St {
            colour: Colour::Green,
            rd: green_register(at),
            rs: green_register(q),
        },
        Instr::St {
            colour: Colour::Blue,
            rd: blue_register(at),
            rs: blue_register(q),
        },
    )?;
    Ok(())
}

/// Appends a load of a cell into pair `p`.
fn put_load(code: &mut Vec<Instr>, p: u8, cell: u32) -> Result<(), AllocError>
    requires { p < 32 }
    ensures { OnOk result (code.new.items ≡ code.old.items ++ image (λ b. 0) (Step3.Load p cell)) }
{
    put_moves(code, p, FIRST_CELL + u64::from(cell), REF_INT)?;
    put_loads(code, p)?;
    Ok(())
}

/// Appends a store of pair `q` to a cell.
fn put_store(code: &mut Vec<Instr>, cell: u32, q: u8, spare: u8) -> Result<(), AllocError>
    requires q { q < 32 }
    requires spare { spare < 32 }
    ensures { OnOk result (code.new.items ≡ code.old.items ++ image (λ b. 0) (Step3.Store cell q spare)) }
{
    put_moves(code, spare, FIRST_CELL + u64::from(cell), REF_INT)?;
    put_stores(code, spare, q)?;
    Ok(())
}

/// Appends a load of the array cell that pair `q` selects into pair `p`.
fn put_load_at(
    code: &mut Vec<Instr>,
    p: u8,
    q: u8,
    first: u32,
    length: u32,
) -> Result<(), AllocError>
    requires p { p < 32 }
    requires q { q < 32 }
    ensures { OnOk result (code.new.items ≡ code.old.items ++ image (λ b. 0) (Step3.LoadAt p q first length)) }
{
    put_indexes(code, p, q, first, length)?;
    put_loads(code, p)?;
    Ok(())
}

/// Appends a store of pair `q` to the array cell that pair `i` selects.
fn put_store_at(
    code: &mut Vec<Instr>,
    first: u32,
    length: u32,
    i: u8,
    q: u8,
    spare: u8,
) -> Result<(), AllocError>
    requires i { i < 32 }
    requires q { q < 32 }
    requires spare { spare < 32 }
    ensures { OnOk result (code.new.items ≡ code.old.items ++ image (λ b. 0) (Step3.StoreAt first length i q spare)) }
{
    put_indexes(code, spare, i, first, length)?;
    put_stores(code, spare, q)?;
    Ok(())
}

/// Appends the branch to the block that begins at instruction `start`, taken if pair `q` holds 0.
fn put_exit(code: &mut Vec<Instr>, q: u8, spare: u8, start: u32) -> Result<(), AllocError>
    requires q { q < 32 }
    requires spare { spare < 32 }
    ensures { OnOk result (code.new.items ≡ code.old.items ++ image (λ b. start) (Step3.Exit q spare 0)) }
{
    put_moves(code, spare, 1 + u64::from(start), CODE_ONE)?;
    put_pair(
        code,
        Instr::BzG {
            rz: green_register(q),
            rd: green_register(spare),
        },
        Instr::BzB {
            rz: blue_register(q),
            rd: blue_register(spare),
            subst: EMPTY,
        },
    )?;
    Ok(())
}

/// Appends the jump to the block that begins at instruction `start`.
fn put_go(code: &mut Vec<Instr>, spare: u8, start: u32) -> Result<(), AllocError>
    requires { spare < 32 }
    ensures { OnOk result (code.new.items ≡ code.old.items ++ image (λ b. start) (Step3.Go spare 0)) }
{
    put_moves(code, spare, 1 + u64::from(start), CODE_ONE)?;
    put_pair(
        code,
        Instr::JmpG {
            rd: green_register(spare),
        },
        Instr::JmpB {
            rd: blue_register(spare),
            subst: EMPTY,
        },
    )?;
    Ok(())
}

/// Appends the instructions of a step; `starts` holds the place of each block's first instruction.
pub(crate) fn put_step(
    code: &mut Vec<Instr>,
    starts: &[u32],
    step: &Step3,
) -> Result<(), AllocError>
    requires pairs { All (λ p. p < 32) (pairs_of step.now) }
    requires target { HasTarget (length starts.now) step.now }
    ensures { OnOk result (code.new.items ≡ code.old.items ++ image (slice_index starts.now) step.now) }
{
    match *step {
        Step3::Put { p, word } => put_moves(code, p, word, INT)?,
        Step3::Copy { p, q } => put_copy(code, p, q)?,
        Step3::Op { op, p, q, s } => put_operation(code, op, p, q, s)?,
        Step3::Load { p, cell } => put_load(code, p, cell)?,
        Step3::Store { cell, q, spare } => put_store(code, cell, q, spare)?,
        Step3::LoadAt {
            p,
            q,
            first,
            length,
        } => put_load_at(code, p, q, first, length)?,
        Step3::StoreAt {
            first,
            length,
            i,
            q,
            spare,
        } => put_store_at(code, first, length, i, q, spare)?,
        Step3::Exit { q, spare, to } => put_exit(code, q, spare, starts[to as usize])?,
        Step3::Go { spare, to } => put_go(code, spare, starts[to as usize])?,
        Step3::Stop => code.push(Instr::Halt)?,
    }
    Ok(())
}
