//! Reads instructions after their first word, and writes them.
ghost use Rattle.std.specs.Prelude.{◌≡◌, ◌++◌, ◌∷◌, [], decimal, option_map, OnOk};
ghost use Rattle.ft_isa.specs.declared.instr.Instr.TheVariants as instrs;
ghost use Rattle.ft_text.specs.LineWords.{words_of};
ghost use Rattle.ft_asm.specs.Operands.{reg_word, colour_word, form_words};
ghost use Rattle.ft_asm.specs.Forms.{row_in};
ghost use Rattle.ft_asm.specs.InstrForms.{ld_word, st_word, instr_form, op_reg_row, op_word_row, mov_row, idx_row, ld_row, st_row, jmp_green_row, jmp_blue_row, bz_green_row, bz_blue_row, op_code_in, op_line_in, transfer_in, instr_in};
ghost use Rattle.ft_asm.specs.Reads.{spaced};

use crate::fields::{is_same, take_basic, take_colour, take_index, take_reg, take_word};
use crate::writing::{put, put_basic, put_colour, put_number, put_op, put_reg};
use ft_isa::{Basic, Colour, Coloured, Instr, NoMemory, Op, Reg, Subst};

/// Reads an operation on two registers; returns it and the text after its words.
fn op_reg_of(op: Op, text: &[u8]) -> Option<(Instr, &[u8])>
    ensures { row_in (op_reg_row op) (words_of text.now) ≡ option_map (λ p. (p.0, words_of p.1.now)) result }
{
    let (rd, text) = take_reg(text)?;
    let (rs, text) = take_reg(text)?;
    let (rt, text) = take_reg(text)?;
    Some((Instr::OpReg { op, rd, rs, rt }, text))
}

/// Reads an operation on a register and a word.
fn op_word_of(op: Op, text: &[u8]) -> Option<(Instr, &[u8])>
    ensures { row_in (op_word_row op) (words_of text.now) ≡ option_map (λ p. (p.0, words_of p.1.now)) result }
{
    let (rd, text) = take_reg(text)?;
    let (rs, text) = take_reg(text)?;
    let (colour, text) = take_colour(text)?;
    let (word, text) = take_word(text)?;
    let value = Coloured { colour, word };
    Some((Instr::OpWord { op, rd, rs, value }, text))
}

/// Reads an operation.
fn op_code_of(op: Op, text: &[u8]) -> Option<(Instr, &[u8])>
    ensures { op_code_in op (words_of text.now) ≡ option_map (λ p. (p.0, words_of p.1.now)) result }
{
    match op_reg_of(op, text) {
        Some(found) => Some(found),
        None => op_word_of(op, text),
    }
}

/// Reads an operation, given its first word.
fn op_line_of<'t>(word: &[u8], text: &'t [u8]) -> Option<(Instr, &'t [u8])>
    ensures { op_line_in word.now (words_of text.now) ≡ option_map (λ p. (p.0, words_of p.1.now)) result }
{
    let Some(op) = Op::of_word(word) else {
        return None;
    };
    op_code_of(op, text)
}

/// Reads a `mov`.
fn mov_of(text: &[u8]) -> Option<(Instr, &[u8])>
    ensures { row_in mov_row (words_of text.now) ≡ option_map (λ p. (p.0, words_of p.1.now)) result }
{
    let (rd, text) = take_reg(text)?;
    let (colour, text) = take_colour(text)?;
    let (word, text) = take_word(text)?;
    let (basic, text) = take_basic(text)?;
    let value = Coloured { colour, word };
    Some((Instr::Mov { rd, value, basic }, text))
}

/// Reads an `idx`.
fn idx_of(text: &[u8]) -> Option<(Instr, &[u8])>
    ensures { row_in idx_row (words_of text.now) ≡ option_map (λ p. (p.0, words_of p.1.now)) result }
{
    let (rd, text) = take_reg(text)?;
    let (rs, text) = take_reg(text)?;
    let (first, text) = take_index(text)?;
    let (length, text) = take_index(text)?;
    let instr = Instr::Idx {
        rd,
        rs,
        first,
        length,
    };
    Some((instr, text))
}

/// Reads a load.
fn ld_of(colour: Colour, text: &[u8]) -> Option<(Instr, &[u8])>
    ensures { row_in (ld_row colour) (words_of text.now) ≡ option_map (λ p. (p.0, words_of p.1.now)) result }
{
    let (rd, text) = take_reg(text)?;
    let (rs, text) = take_reg(text)?;
    Some((Instr::Ld { colour, rd, rs }, text))
}

/// Reads a store.
fn st_of(colour: Colour, text: &[u8]) -> Option<(Instr, &[u8])>
    ensures { row_in (st_row colour) (words_of text.now) ≡ option_map (λ p. (p.0, words_of p.1.now)) result }
{
    let (rd, text) = take_reg(text)?;
    let (rs, text) = take_reg(text)?;
    Some((Instr::St { colour, rd, rs }, text))
}

/// Reads a green jump.
fn jmp_green_of(text: &[u8]) -> Option<(Instr, &[u8])>
    ensures { row_in jmp_green_row (words_of text.now) ≡ option_map (λ p. (p.0, words_of p.1.now)) result }
{
    let (rd, text) = take_reg(text)?;
    Some((Instr::JmpG { rd }, text))
}

/// Reads a blue jump without its rows.
fn jmp_blue_of(text: &[u8]) -> Option<(Instr, &[u8])>
    ensures { row_in jmp_blue_row (words_of text.now) ≡ option_map (λ p. (p.0, words_of p.1.now)) result }
{
    let (rd, text) = take_reg(text)?;
    let (memory, text) = take_index(text)?;
    let subst = Subst {
        first: 0,
        past: 0,
        memory,
    };
    Some((Instr::JmpB { rd, subst }, text))
}

/// Reads a green branch.
fn bz_green_of(text: &[u8]) -> Option<(Instr, &[u8])>
    ensures { row_in bz_green_row (words_of text.now) ≡ option_map (λ p. (p.0, words_of p.1.now)) result }
{
    let (rz, text) = take_reg(text)?;
    let (rd, text) = take_reg(text)?;
    Some((Instr::BzG { rz, rd }, text))
}

/// Reads a blue branch without its rows.
fn bz_blue_of(text: &[u8]) -> Option<(Instr, &[u8])>
    ensures { row_in bz_blue_row (words_of text.now) ≡ option_map (λ p. (p.0, words_of p.1.now)) result }
{
    let (rz, text) = take_reg(text)?;
    let (rd, text) = take_reg(text)?;
    let (memory, text) = take_index(text)?;
    let subst = Subst {
        first: 0,
        past: 0,
        memory,
    };
    Some((Instr::BzB { rz, rd, subst }, text))
}

/// Reads a jump, a branch, `halt` or an operation, given its first word.
fn transfer_of<'t>(word: &[u8], text: &'t [u8]) -> Option<(Instr, &'t [u8])>
    ensures { transfer_in word.now (words_of text.now) ≡ option_map (λ p. (p.0, words_of p.1.now)) result }
{
    if is_same(word, b"jmp_G") {
        return jmp_green_of(text);
    }
    if is_same(word, b"jmp_B") {
        return jmp_blue_of(text);
    }
    if is_same(word, b"bz_G") {
        return bz_green_of(text);
    }
    if is_same(word, b"bz_B") {
        return bz_blue_of(text);
    }
    if is_same(word, b"halt") {
        return Some((Instr::Halt, text));
    }
    op_line_of(word, text)
}

/// Reads an instruction, given its first word; returns it and the text after its operands.
pub(crate) fn instr_of<'t>(word: &[u8], text: &'t [u8]) -> Option<(Instr, &'t [u8])>
    ensures { instr_in word.now (words_of text.now) ≡ option_map (λ p. (p.0, words_of p.1.now)) result }
{
    if is_same(word, b"mov") {
        return mov_of(text);
    }
    if is_same(word, b"idx") {
        return idx_of(text);
    }
    if is_same(word, b"ld_G") {
        return ld_of(Colour::Green, text);
    }
    if is_same(word, b"ld_B") {
        return ld_of(Colour::Blue, text);
    }
    if is_same(word, b"st_G") {
        return st_of(Colour::Green, text);
    }
    if is_same(word, b"st_B") {
        return st_of(Colour::Blue, text);
    }
    transfer_of(word, text)
}

/// Appends the words of two registers.
fn put_regs(out: &mut Vec<u8>, a: Reg, b: Reg) -> Result<(), NoMemory>
    ensures { OnOk result (out.new.items ≡ out.old.items ++ spaced (reg_word a ∷ reg_word b ∷ [])) }
{
    put_reg(out, a)?;
    put(out, b" ")?;
    put_reg(out, b)
}

/// Appends the words of a coloured word.
fn put_value(out: &mut Vec<u8>, value: Coloured) -> Result<(), NoMemory>
    ensures { OnOk result (out.new.items ≡ out.old.items ++ spaced (colour_word value.colour ∷ decimal value.word ∷ [])) }
{
    put_colour(out, value.colour)?;
    put(out, b" ")?;
    put_number(out, value.word)
}

/// Appends an operation on two registers.
fn put_op_reg(out: &mut Vec<u8>, op: Op, rd: Reg, rs: Reg, rt: Reg) -> Result<(), NoMemory>
    ensures { OnOk result (out.new.items ≡ out.old.items ++ spaced (form_words (instr_form (instrs.OpReg op rd rs rt)))) }
{
    put_op(out, op)?;
    put(out, b" ")?;
    put_regs(out, rd, rs)?;
    put(out, b" ")?;
    put_reg(out, rt)
}

/// Appends an operation on a register and a word.
fn put_op_word(out: &mut Vec<u8>, op: Op, rd: Reg, rs: Reg, value: Coloured) -> Result<(), NoMemory>
    ensures { OnOk result (out.new.items ≡ out.old.items ++ spaced (form_words (instr_form (instrs.OpWord op rd rs value)))) }
{
    put_op(out, op)?;
    put(out, b" ")?;
    put_regs(out, rd, rs)?;
    put(out, b" ")?;
    put_value(out, value)
}

/// Appends a `mov`.
fn put_mov(out: &mut Vec<u8>, rd: Reg, value: Coloured, basic: Basic) -> Result<(), NoMemory>
    ensures { OnOk result (out.new.items ≡ out.old.items ++ spaced (form_words (instr_form (instrs.Mov rd basic value)))) }
{
    put(out, b"mov ")?;
    put_reg(out, rd)?;
    put(out, b" ")?;
    put_value(out, value)?;
    put(out, b" ")?;
    put_basic(out, basic)
}

/// Appends the first word of a load.
fn put_ld_word(out: &mut Vec<u8>, colour: Colour) -> Result<(), NoMemory>
    ensures { OnOk result (out.new.items ≡ out.old.items ++ ld_word colour) }
{
    match colour {
        Colour::Green => put(out, b"ld_G"),
        Colour::Blue => put(out, b"ld_B"),
    }
}

/// Appends a load.
fn put_ld(out: &mut Vec<u8>, colour: Colour, rd: Reg, rs: Reg) -> Result<(), NoMemory>
    ensures { OnOk result (out.new.items ≡ out.old.items ++ spaced (form_words (instr_form (instrs.Ld colour rd rs)))) }
{
    put_ld_word(out, colour)?;
    put(out, b" ")?;
    put_regs(out, rd, rs)
}

/// Appends the first word of a store.
fn put_st_word(out: &mut Vec<u8>, colour: Colour) -> Result<(), NoMemory>
    ensures { OnOk result (out.new.items ≡ out.old.items ++ st_word colour) }
{
    match colour {
        Colour::Green => put(out, b"st_G"),
        Colour::Blue => put(out, b"st_B"),
    }
}

/// Appends a store.
fn put_st(out: &mut Vec<u8>, colour: Colour, rd: Reg, rs: Reg) -> Result<(), NoMemory>
    ensures { OnOk result (out.new.items ≡ out.old.items ++ spaced (form_words (instr_form (instrs.St colour rd rs)))) }
{
    put_st_word(out, colour)?;
    put(out, b" ")?;
    put_regs(out, rd, rs)
}

/// Appends a green jump.
fn put_jmp_green(out: &mut Vec<u8>, rd: Reg) -> Result<(), NoMemory>
    ensures { OnOk result (out.new.items ≡ out.old.items ++ spaced (form_words (instr_form (instrs.JmpG rd)))) }
{
    put(out, b"jmp_G ")?;
    put_reg(out, rd)
}

/// Appends a green branch.
fn put_bz_green(out: &mut Vec<u8>, rz: Reg, rd: Reg) -> Result<(), NoMemory>
    ensures { OnOk result (out.new.items ≡ out.old.items ++ spaced (form_words (instr_form (instrs.BzG rz rd)))) }
{
    put(out, b"bz_G ")?;
    put_regs(out, rz, rd)
}

/// Appends an `idx`.
fn put_idx(out: &mut Vec<u8>, rd: Reg, rs: Reg, first: u32, length: u32) -> Result<(), NoMemory>
    ensures { OnOk result (out.new.items ≡ out.old.items ++ spaced (form_words (instr_form (instrs.Idx rd rs first length)))) }
{
    put(out, b"idx ")?;
    put_regs(out, rd, rs)?;
    put(out, b" ")?;
    put_number(out, u64::from(first))?;
    put(out, b" ")?;
    put_number(out, u64::from(length))
}

/// Appends a blue jump without its rows.
fn put_jmp_blue(out: &mut Vec<u8>, rd: Reg, subst: Subst) -> Result<(), NoMemory>
    ensures { OnOk result (out.new.items ≡ out.old.items ++ spaced (form_words (instr_form (instrs.JmpB rd subst)))) }
{
    put(out, b"jmp_B ")?;
    put_reg(out, rd)?;
    put(out, b" ")?;
    put_number(out, u64::from(subst.memory))
}

/// Appends a blue branch without its rows.
fn put_bz_blue(out: &mut Vec<u8>, rz: Reg, rd: Reg, subst: Subst) -> Result<(), NoMemory>
    ensures { OnOk result (out.new.items ≡ out.old.items ++ spaced (form_words (instr_form (instrs.BzB rz rd subst)))) }
{
    put(out, b"bz_B ")?;
    put_regs(out, rz, rd)?;
    put(out, b" ")?;
    put_number(out, u64::from(subst.memory))
}

/// Appends the words of an instruction without the rows of its substitution.
pub(crate) fn put_instr(out: &mut Vec<u8>, instr: Instr) -> Result<(), NoMemory>
    ensures { OnOk result (out.new.items ≡ out.old.items ++ spaced (form_words (instr_form instr))) }
{
    match instr {
        Instr::OpReg { op, rd, rs, rt } => put_op_reg(out, op, rd, rs, rt),
        Instr::OpWord { op, rd, rs, value } => put_op_word(out, op, rd, rs, value),
        Instr::Mov { rd, value, basic } => put_mov(out, rd, value, basic),
        Instr::Ld { colour, rd, rs } => put_ld(out, colour, rd, rs),
        Instr::St { colour, rd, rs } => put_st(out, colour, rd, rs),
        Instr::JmpG { rd } => put_jmp_green(out, rd),
        Instr::JmpB { rd, subst } => put_jmp_blue(out, rd, subst),
        Instr::BzG { rz, rd } => put_bz_green(out, rz, rd),
        Instr::BzB { rz, rd, subst } => put_bz_blue(out, rz, rd, subst),
        Instr::Halt => put(out, b"halt"),
        Instr::Idx {
            rd,
            rs,
            first,
            length,
        } => put_idx(out, rd, rs, first, length),
    }
}
