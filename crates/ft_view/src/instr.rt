//! Instructions: checks their records, and reads them in place. Each kind reads only its own fields.
ghost use Rattle.std.specs.Prelude.{◌≡◌, ◌<◌, ◌≤◌, ◌^◌, length};
ghost use Rattle.ft_isa.specs.Operations.{last_op_code};
ghost use Rattle.ft_view.specs.Found.{Finds};
ghost use Rattle.ft_view.specs.InPlace.{kind_in, a_in, b_in, c_in, x_in, instr_in};
ghost use Rattle.ft_format.specs.Fields.{code_numbers};
ghost use Rattle.ft_format.specs.InstrRecords.{no_word_broken, basic_number_broken, substitution_broken, transfer_broken, op_reg_broken, op_word_broken, mov_broken, access_broken, jump_broken, branch_broken, halt_broken, run_broken, index_broken, instr_broken, rows_past};

use crate::in_place::{
    coloured_in, field_c, field_x, kind, known_op, number_at, reg_a, reg_b, reg_c, subst_in,
};
use crate::node_records::NodeRecords;
use crate::parts::{basic_numbers, basic_of_number, colour};
use crate::rules::{
    check, check_basic, check_colour, check_node_number, check_op, check_register, check_some,
    check_zero,
};
use ft_format::{CodeRow, Header, ObjectError, Version};
use ft_isa::Instr;

/// Checks that the word of a record is zero.
fn check_no_word(at: usize, row: CodeRow) -> Result<(), ObjectError>
    ensures { Finds result (no_word_broken at row.high row.low) }
{
    check_zero(at, row.high)?;
    check_zero(at, row.low)
}

/// Checks an operation on two registers.
fn check_op_reg(version: Version, at: usize, row: CodeRow) -> Result<(), ObjectError>
    requires { at ≤ 2 ^ 27 }
    ensures { Finds result (op_reg_broken version at row.a row.b row.c row.x row.high row.low) }
{
    check_register(at + 1, row.a)?;
    check_register(at + 2, row.b)?;
    check_register(at + 3, row.c)?;
    check_op(version, at + 4, row.x)?;
    check_no_word(at + 8, row)
}

/// Checks an operation on a register and a word.
fn check_op_word(version: Version, at: usize, row: CodeRow) -> Result<(), ObjectError>
    requires { at ≤ 2 ^ 27 }
    ensures { Finds result (op_word_broken version at row.a row.b row.c row.x) }
{
    check_register(at + 1, row.a)?;
    check_register(at + 2, row.b)?;
    check_colour(at + 3, row.c)?;
    check_op(version, at + 4, row.x)
}

/// Checks the basic type that x spells.
fn check_basic_number(types: u32, at: usize, x: u32) -> Result<(), ObjectError>
    requires { at ≤ 2 ^ 28 }
    ensures { Finds result (basic_number_broken types at x) }
{
    let (refs, base, code_type) = basic_numbers(x);
    check_basic(types, at, refs, base, code_type)
}

/// Checks a `mov`, which claims a type.
fn check_mov(types: u32, at: usize, row: CodeRow) -> Result<(), ObjectError>
    requires { at ≤ 2 ^ 27 }
    ensures { Finds result (mov_broken types at row.a row.b row.c row.x) }
{
    check_register(at + 1, row.a)?;
    check_zero(at + 2, u32::from(row.b))?;
    check_colour(at + 3, row.c)?;
    check_basic_number(types, at + 4, row.x)
}

/// Checks a load or a store: two registers and a colour.
fn check_access(at: usize, row: CodeRow) -> Result<(), ObjectError>
    requires { at ≤ 2 ^ 27 }
    ensures { Finds result (access_broken at row.a row.b row.c row.x row.high row.low) }
{
    check_register(at + 1, row.a)?;
    check_register(at + 2, row.b)?;
    check_colour(at + 3, row.c)?;
    check_zero(at + 4, row.x)?;
    check_no_word(at + 8, row)
}

/// Checks the substitution of a blue jump or branch, whose first field is at `at`.
fn check_substitution(
    header: Header,
    nodes: &NodeRecords,
    first: u32,
    at: usize,
    row: CodeRow,
) -> Result<(), ObjectError>
    requires places { at ≤ 2 ^ 28 }
    requires first { first ≤ 2 ^ 27 }
    ensures { Finds result (substitution_broken header nodes.now first at row.x row.high row.low) }
{
    check(row.x == first, ObjectError::Order { at })?;
    check(row.x <= row.high, ObjectError::Order { at: at + 4 })?;
    check(row.high <= header.substs, ObjectError::Order { at: at + 4 })?;
    check(row.high <= first + 128, ObjectError::Count { at: at + 4 })?;
    check_node_number(nodes, true, at + 8, row.low)
}

/// Checks a jump or branch from field x on: zeros if it is green, a substitution if it is blue.
fn check_transfer(
    header: Header,
    nodes: &NodeRecords,
    first: u32,
    at: usize,
    row: CodeRow,
) -> Result<(), ObjectError>
    requires places { at ≤ 2 ^ 28 }
    requires first { first ≤ 2 ^ 27 }
    ensures { Finds result (transfer_broken header nodes.now first at row.c row.x row.high row.low) }
{
    if row.c == 0 {
        check_zero(at, row.x)?;
        check_no_word(at + 4, row)
    } else {
        check_substitution(header, nodes, first, at, row)
    }
}

/// Checks a jump, whose colour is in field c.
fn check_jump(
    header: Header,
    nodes: &NodeRecords,
    first: u32,
    at: usize,
    row: CodeRow,
) -> Result<(), ObjectError>
    requires places { at ≤ 2 ^ 27 }
    requires first { first ≤ 2 ^ 27 }
    ensures { Finds result (jump_broken header nodes.now first at row.a row.b row.c row.x row.high row.low) }
{
    check_register(at + 1, row.a)?;
    check_zero(at + 2, u32::from(row.b))?;
    check_colour(at + 3, row.c)?;
    check_transfer(header, nodes, first, at + 4, row)
}

/// Checks a branch, whose colour is in field c.
fn check_branch(
    header: Header,
    nodes: &NodeRecords,
    first: u32,
    at: usize,
    row: CodeRow,
) -> Result<(), ObjectError>
    requires places { at ≤ 2 ^ 27 }
    requires first { first ≤ 2 ^ 27 }
    ensures { Finds result (branch_broken header nodes.now first at row.a row.b row.c row.x row.high row.low) }
{
    check_register(at + 1, row.a)?;
    check_register(at + 2, row.b)?;
    check_colour(at + 3, row.c)?;
    check_transfer(header, nodes, first, at + 4, row)
}

/// Checks a `halt`, all of whose fields are zero.
fn check_halt(at: usize, row: CodeRow) -> Result<(), ObjectError>
    requires { at ≤ 2 ^ 27 }
    ensures { Finds result (halt_broken at row.a row.b row.c row.x row.high row.low) }
{
    check_zero(at + 1, u32::from(row.a))?;
    check_zero(at + 2, u32::from(row.b))?;
    check_zero(at + 3, u32::from(row.c))?;
    check_zero(at + 4, row.x)?;
    check_no_word(at + 8, row)
}

/// Checks that the word of a record is the length of a run from cell x.
fn check_run(cells: u32, at: usize, row: CodeRow) -> Result<(), ObjectError>
    ensures { Finds result (run_broken cells at row.x row.high row.low) }
{
    check(row.high == 0, ObjectError::Count { at })?;
    check_some(1024, at, row.low)?;
    let past = u64::from(row.x) + u64::from(row.low);
    check(past <= u64::from(cells), ObjectError::Index { at })
}

/// Checks an `idx`: two registers, and a run of cells.
fn check_index(cells: u32, at: usize, row: CodeRow) -> Result<(), ObjectError>
    requires { at ≤ 2 ^ 27 }
    ensures { Finds result (index_broken cells at row.a row.b row.c row.x row.high row.low) }
{
    check_register(at + 1, row.a)?;
    check_register(at + 2, row.b)?;
    check_zero(at + 3, u32::from(row.c))?;
    check(row.x < cells, ObjectError::Index { at: at + 4 })?;
    check_run(cells, at + 8, row)
}

/// Checks the record of an instruction, where earlier substitutions took the rows up to `first`: `Kind` for a code
/// without a meaning, too many refs or a substitution's memory that is an integer, `Index` for a register, type, node
/// or cell that does not exist, `Pad` for an unused field that is not zero, `Order` and `Count` for the rows of its
/// substitution, and `Count` for the length of a run.
pub fn check_instr(
    header: Header,
    nodes: &NodeRecords,
    first: u32,
    at: usize,
    row: CodeRow,
) -> Result<(), ObjectError>
    requires places { at ≤ 2 ^ 27 }
    requires first { first ≤ 2 ^ 27 }
    ensures { Finds result (instr_broken header nodes.now first at (code_numbers row)) }
{
    let version = header.version();
    check(
        row.kind <= version.last_instr_kind(),
        ObjectError::Kind { at },
    )?;
    match row.kind {
        0 => check_op_reg(version, at, row),
        1 => check_op_word(version, at, row),
        2 => check_mov(header.types, at, row),
        3 | 4 => check_access(at, row),
        5 => check_jump(header, nodes, first, at, row),
        6 => check_branch(header, nodes, first, at, row),
        7 => check_halt(at, row),
        _ => check_index(header.cells, at, row),
    }
}

/// The row after the last one that the substitutions up to this record's instruction take, where earlier ones took the
/// rows up to `first`.
pub fn rows_past(first: u32, row: CodeRow) -> u32
    ensures { result ≡ rows_past first (code_numbers row) }
{
    match row.kind {
        5 | 6 if row.c != 0 => row.high,
        _ => first,
    }
}

/// The instruction that the valid record in the first 16 bytes encodes. Where the colour distinguishes two instructions
/// of a kind, each has its own arm, so that the machine's loop makes only this one choice.
#[inline(always)]
pub fn instr_in(bytes: &[u8]) -> Instr
    requires there { 16 ≤ length bytes.now }
    requires kind { kind_in bytes.now ≤ 8 }
    requires op { kind_in bytes.now ≤ 1 → x_in bytes.now ≤ last_op_code }
    requires a { a_in bytes.now < 64 }
    requires b { b_in bytes.now < 64 }
    requires c { c_in bytes.now < 64 }
    ensures { result ≡ instr_in bytes.now }
{
    match kind(bytes) {
        0 => Instr::OpReg {
            op: known_op(field_x(bytes)),
            rd: reg_a(bytes),
            rs: reg_b(bytes),
            rt: reg_c(bytes),
        },
        1 => Instr::OpWord {
            op: known_op(field_x(bytes)),
            rd: reg_a(bytes),
            rs: reg_b(bytes),
            value: coloured_in(bytes),
        },
        2 => Instr::Mov {
            rd: reg_a(bytes),
            value: coloured_in(bytes),
            basic: basic_of_number(field_x(bytes)),
        },
        3 => Instr::Ld {
            colour: colour(field_c(bytes)),
            rd: reg_a(bytes),
            rs: reg_b(bytes),
        },
        4 => Instr::St {
            colour: colour(field_c(bytes)),
            rd: reg_a(bytes),
            rs: reg_b(bytes),
        },
        5 if field_c(bytes) == 0 => Instr::JmpG { rd: reg_a(bytes) },
        5 => Instr::JmpB {
            rd: reg_a(bytes),
            subst: subst_in(bytes),
        },
        6 if field_c(bytes) == 0 => Instr::BzG {
            rz: reg_a(bytes),
            rd: reg_b(bytes),
        },
        6 => Instr::BzB {
            rz: reg_a(bytes),
            rd: reg_b(bytes),
            subst: subst_in(bytes),
        },
        7 => Instr::Halt,
        _ => Instr::Idx {
            rd: reg_a(bytes),
            rs: reg_b(bytes),
            first: field_x(bytes),
            length: number_at(bytes, 12),
        },
    }
}
