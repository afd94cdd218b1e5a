//! Makes the sample object.
ghost use Rattle.std.specs.Prelude.{◌≡◌, ◌≤◌, ◌++◌, ◌∷◌, [], IfOk, OnOk};
ghost use Rattle.ft_demo.specs.Sample.{opening, sample_object, turn, turns_from};
ghost use Rattle.ft_typing.specs.Accepted.{IsAccepted};
ghost use Rattle.ft_typing.specs.Examples as example;
ghost use Rattle.ft_types.specs.Spellable.{IsSpellable};

use ft_isa::{Colour, Coloured, FIRST_CELL, INT, Instr, NoMemory, Op, REF_INT, Reg};
use ft_static::{Node, Shape};
use ft_types::{Block, Cell, CodeType, Object, Table};
use std::alloc::{AllocError, Global};

/// The maximum number of turns: the object then has 65,531 instructions.
pub const MOST_TURNS: u32 = 10_921;

/// The green register of the address.
fn green_address() -> Reg
    ensures { result ≡ example.r0 }
{
    Reg::below(0)
}

/// The green register of the value.
fn green_value() -> Reg
    ensures { result ≡ example.r1 }
{
    Reg::below(1)
}

/// The blue register of the address.
fn blue_address() -> Reg
    ensures { result ≡ example.r32 }
{
    Reg::below(32)
}

/// The blue register of the value.
fn blue_value() -> Reg
    ensures { result ≡ example.r33 }
{
    Reg::below(33)
}

/// A word in green.
fn green(word: u64) -> Coloured
    ensures { result ≡ example.green word }
{
    Coloured {
        colour: Colour::Green,
        word,
    }
}

/// A word in blue.
fn blue(word: u64) -> Coloured
    ensures { result ≡ example.blue word }
{
    Coloured {
        colour: Colour::Blue,
        word,
    }
}

/// Appends two instructions.
fn put_pair(code: &mut Vec<Instr>, first: Instr, second: Instr) -> Result<(), AllocError>
    ensures { OnOk result (code.new.items ≡ code.old.items ++ first ∷ second ∷ []) }
{
    code.push(first)?;
    code.push(second)?;
    Ok(())
}

/// Appends moves of the address and of the value 0 into their registers.
fn put_opening(code: &mut Vec<Instr>) -> Result<(), AllocError>
    ensures { OnOk result (code.new.items ≡ code.old.items ++ opening) }
{
    put_pair(
        code,
        Instr::Mov {
            rd: green_address(),
            value: green(FIRST_CELL),
            basic: REF_INT,
        },
        Instr::Mov {
            rd: blue_address(),
            value: blue(FIRST_CELL),
            basic: REF_INT,
        },
    )?;
    put_pair(
        code,
        Instr::Mov {
            rd: green_value(),
            value: green(0),
            basic: INT,
        },
        Instr::Mov {
            rd: blue_value(),
            value: blue(0),
            basic: INT,
        },
    )
}

/// Appends the instructions that multiply a register by three and add a word.
fn put_value(
    code: &mut Vec<Instr>,
    register: Reg,
    three: Coloured,
    more: Coloured,
) -> Result<(), AllocError>
    ensures { OnOk result (code.new.items ≡ code.old.items ++ Instr.OpWord Op.Mul register register three ∷ Instr.OpWord Op.Add register register more ∷ []) }
{
    put_pair(
        code,
        Instr::OpWord {
            op: Op::Mul,
            rd: register,
            rs: register,
            value: three,
        },
        Instr::OpWord {
            op: Op::Add,
            rd: register,
            rs: register,
            value: more,
        },
    )
}

/// Appends turn `i`.
fn put_turn(code: &mut Vec<Instr>, i: u64) -> Result<(), AllocError>
    ensures { OnOk result (code.new.items ≡ code.old.items ++ turn i) }
{
    put_value(code, green_value(), green(3), green(i))?;
    put_value(code, blue_value(), blue(3), blue(i))?;
    put_pair(
        code,
        Instr::St {
            colour: Colour::Green,
            rd: green_address(),
            rs: green_value(),
        },
        Instr::St {
            colour: Colour::Blue,
            rd: blue_address(),
            rs: blue_value(),
        },
    )
}

/// The instructions of `n` turns.
fn instructions(alloc: Global, n: u32) -> Result<Vec<Instr>, AllocError>
    ensures { IfOk result (λ code. code.items ≡ opening ++ turns_from 1 n) }
{
    let mut code = Vec::with_capacity(alloc, 6 * n as usize + 5)?;
    put_opening(&mut code)?;
    for i in 0..n {
        put_turn(&mut code, i as u64 + 1)?;
    }
    code.push(Instr::Halt)?;
    Ok(code)
}

/// The table of one value.
fn one<T: Drop>(alloc: Global, value: T) -> Result<Table<T>, AllocError>
    ensures { IfOk result (λ t. t ≡ value ∷ []) }
{
    let mut values = Vec::new(alloc);
    values.push(value)?;
    Ok(Table::from_vec(values))
}

/// The object of `n` turns, for any `n`.
fn made(alloc: Global, n: u32) -> Result<Object, AllocError>
    ensures { IfOk result (λ o. o ≡ sample_object n) }
{
    let cell = Cell {
        name: Table::from_vec(Vec::from_slice(alloc, b"out")?),
        basic: INT,
        init: 0,
    };
    let known = CodeType {
        ints: 0,
        regs: Table::new(alloc),
        queue: Table::new(alloc),
        memory: 0,
    };
    Ok(Object {
        cells: one(alloc, cell)?,
        nodes: one(
            alloc,
            Node {
                scope: 0,
                shape: Shape::Memory,
            },
        )?,
        types: one(alloc, known)?,
        blocks: one(
            alloc,
            Block {
                start: 0,
                code_type: 0,
            },
        )?,
        instrs: Table::from_vec(instructions(alloc, n)?),
        substs: Table::new(alloc),
        entry: 0,
    })
}

/// The object of `n` turns, from 1 to 10,921: each turn triples a value, adds the number of the turn, and stores it in
/// the cell `out`. It has 6n + 5 instructions, and its run ends after 12n + 10 steps.
pub fn sample(alloc: Global, n: u32) -> Result<Object, NoMemory>
    requires some { 1 ≤ n }
    requires few { n ≤ 10921 }
    ensures object { IfOk result (λ o. o ≡ sample_object n) }
    ensures spellable { IfOk result IsSpellable }
    ensures accepted { IfOk result IsAccepted }
{
    let object = made(alloc, n)?;
    Ok(object)
}
