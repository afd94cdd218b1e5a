//! The two code types of a compiled object.
ghost use Rattle.std.specs.Prelude.{◌≡◌, ◌≤◌, ◌<◌, ◌++◌, ◌∷◌, [], map, IfOk, OnOk};
ghost use Rattle.std.specs.List.{range_with_len};
ghost use Rattle.ft_compile.specs.Emitted.{blue_row, entry_type, green_row, variables_type};

use ft_dup::{blue_register, green_register};
use ft_isa::{Colour, INT};
use ft_types::{CodeType, RegType, Table};
use std::alloc::{AllocError, Global};

/// Adds a row for each variable, in green.
fn put_green(regs: &mut Vec<RegType>, vars: u8) -> Result<(), AllocError>
    requires { vars ≤ 32 }
    ensures { OnOk result (regs.new.items ≡ regs.old.items ++ map green_row (range_with_len 0 vars)) }
{
    for i in 0..vars {
        regs.push(RegType {
            reg: green_register(i),
            colour: Colour::Green,
            basic: INT,
            expr: 1 + u32::from(i),
        })?;
    }
    Ok(())
}

/// Adds a row for each variable, in blue.
fn put_blue(regs: &mut Vec<RegType>, vars: u8) -> Result<(), AllocError>
    requires { vars ≤ 32 }
    ensures { OnOk result (regs.new.items ≡ regs.old.items ++ map blue_row (range_with_len 0 vars)) }
{
    for i in 0..vars {
        regs.push(RegType {
            reg: blue_register(i),
            colour: Colour::Blue,
            basic: INT,
            expr: 1 + u32::from(i),
        })?;
    }
    Ok(())
}

/// The code type of the entry: only the memory is known.
fn entry_of(alloc: Global) -> CodeType
    ensures { result ≡ entry_type }
{
    CodeType {
        ints: 0,
        regs: Table::new(alloc),
        queue: Table::new(alloc),
        memory: 0,
    }
}

/// The code type of all other blocks: variable i is in both registers of pair i.
fn variables_of(alloc: Global, vars: u8) -> Result<CodeType, AllocError>
    requires { vars ≤ 32 }
    ensures { IfOk result (λ t. t ≡ variables_type vars) }
{
    let mut regs = Vec::new(alloc);
    put_green(&mut regs, vars)?;
    put_blue(&mut regs, vars)?;
    Ok(CodeType {
        ints: vars,
        regs: Table::from_vec(regs),
        queue: Table::new(alloc),
        memory: 0,
    })
}

/// The code types of an object with this many variables.
pub fn types_of(alloc: Global, vars: u8) -> Result<Vec<CodeType>, AllocError>
    requires { vars ≤ 32 }
    ensures { IfOk result (λ v. v.items ≡ entry_type ∷ variables_type vars ∷ []) }
{
    let variables = variables_of(alloc, vars)?;
    let mut types = Vec::new(alloc);
    types.push(entry_of(alloc))?;
    types.push(variables)?;
    Ok(types)
}
