//! Writes lines, except those of nodes and instructions.
ghost use Rattle.std.specs.Prelude.{◌≡◌, ◌++◌, decimal, OnOk};
ghost use Rattle.ft_isa.specs.Operations.{op_word};
ghost use Rattle.ft_asm.specs.Operands.{reg_word, colour_word, basic_word, base_word};
ghost use Rattle.ft_asm.specs.Reads.{line_text, cell_line, reg_head};
ghost use Rattle.ft_asm.specs.declared.line.Line.TheVariants as lines;

use ft_isa::{Base, Basic, Colour, NoMemory, Op, Reg};
use ft_types::RegType;
use itoa::Buffer;

/// Appends a piece.
pub(crate) fn put(out: &mut Vec<u8>, piece: &[u8]) -> Result<(), NoMemory>
    ensures { OnOk result (out.new.items ≡ out.old.items ++ piece.now) }
{
    out.extend_from_slice(piece)?;
    Ok(())
}

/// Appends a number, in decimal digits.
pub(crate) fn put_number(out: &mut Vec<u8>, number: u64) -> Result<(), NoMemory>
    ensures { OnOk result (out.new.items ≡ out.old.items ++ decimal number) }
{
    let mut digits = Buffer::new();
    put(out, digits.format(number).as_bytes())
}

/// Appends the word of a register.
pub(crate) fn put_reg(out: &mut Vec<u8>, reg: Reg) -> Result<(), NoMemory>
    ensures { OnOk result (out.new.items ≡ out.old.items ++ reg_word reg) }
{
    put(out, b"r")?;
    put_number(out, u64::from(reg.number()))
}

/// Appends the word of a colour.
pub(crate) fn put_colour(out: &mut Vec<u8>, colour: Colour) -> Result<(), NoMemory>
    ensures { OnOk result (out.new.items ≡ out.old.items ++ colour_word colour) }
{
    match colour {
        Colour::Green => put(out, b"G"),
        Colour::Blue => put(out, b"B"),
    }
}

/// Appends the word of an operation.
pub(crate) fn put_op(out: &mut Vec<u8>, op: Op) -> Result<(), NoMemory>
    ensures { OnOk result (out.new.items ≡ out.old.items ++ op_word op) }
{
    put(out, op.word())
}

/// Appends the word of a base.
fn put_base(out: &mut Vec<u8>, base: Base) -> Result<(), NoMemory>
    ensures { OnOk result (out.new.items ≡ out.old.items ++ base_word base) }
{
    match base {
        Base::Int => put(out, b"int"),
        Base::Code(code_type) => {
            put(out, b"code:")?;
            put_number(out, u64::from(code_type))
        }
    }
}

/// Appends the word of a basic type.
pub(crate) fn put_basic(out: &mut Vec<u8>, basic: Basic) -> Result<(), NoMemory>
    ensures { OnOk result (out.new.items ≡ out.old.items ++ basic_word basic) }
{
    for _ in 0..basic.refs {
        put(out, b"ref:")?;
    }
    put_base(out, basic.base)
}

/// Appends the line of a cell.
pub(crate) fn put_cell(
    out: &mut Vec<u8>,
    name: &[u8],
    basic: Basic,
    init: u64,
) -> Result<(), NoMemory>
    ensures { OnOk result (out.new.items ≡ out.old.items ++ line_text (cell_line name.now basic init)) }
{
    put(out, b"cell ")?;
    put(out, name)?;
    put(out, b" ")?;
    put_basic(out, basic)?;
    put(out, b" ")?;
    put_number(out, init)?;
    put(out, b"\n")
}

/// Appends the line of a code type.
pub(crate) fn put_type(out: &mut Vec<u8>, ints: u8, memory: u32) -> Result<(), NoMemory>
    ensures { OnOk result (out.new.items ≡ out.old.items ++ line_text (lines.Type ints memory)) }
{
    put(out, b"type ")?;
    put_number(out, u64::from(ints))?;
    put(out, b" ")?;
    put_number(out, u64::from(memory))?;
    put(out, b"\n")
}

/// Appends the first words of a register row.
fn put_reg_head(out: &mut Vec<u8>, reg: Reg, colour: Colour) -> Result<(), NoMemory>
    ensures { OnOk result (out.new.items ≡ out.old.items ++ reg_head reg colour) }
{
    put(out, b"reg ")?;
    put_reg(out, reg)?;
    put(out, b" ")?;
    put_colour(out, colour)?;
    put(out, b" ")
}

/// Appends the line of a register row.
pub(crate) fn put_reg_row(out: &mut Vec<u8>, row: RegType) -> Result<(), NoMemory>
    ensures { OnOk result (out.new.items ≡ out.old.items ++ line_text (lines.Reg row)) }
{
    put_reg_head(out, row.reg, row.colour)?;
    put_basic(out, row.basic)?;
    put(out, b" ")?;
    put_number(out, u64::from(row.expr))?;
    put(out, b"\n")
}

/// Appends the line of a queue row.
pub(crate) fn put_pend(out: &mut Vec<u8>, address: u32, value: u32) -> Result<(), NoMemory>
    ensures { OnOk result (out.new.items ≡ out.old.items ++ line_text (lines.Pend address value)) }
{
    put(out, b"pend ")?;
    put_number(out, u64::from(address))?;
    put(out, b" ")?;
    put_number(out, u64::from(value))?;
    put(out, b"\n")
}

/// Appends the line of a block.
pub(crate) fn put_block(out: &mut Vec<u8>, code_type: u32) -> Result<(), NoMemory>
    ensures { OnOk result (out.new.items ≡ out.old.items ++ line_text (lines.Block code_type)) }
{
    put(out, b"block ")?;
    put_number(out, u64::from(code_type))?;
    put(out, b"\n")
}

/// Appends the line of the entry block.
pub(crate) fn put_entry(out: &mut Vec<u8>, block: u32) -> Result<(), NoMemory>
    ensures { OnOk result (out.new.items ≡ out.old.items ++ line_text (lines.Entry block)) }
{
    put(out, b"entry ")?;
    put_number(out, u64::from(block))?;
    put(out, b"\n")
}
