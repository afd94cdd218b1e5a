//! Keys for the table of forms, made from the object's own content.
ghost use Rattle.std.specs.Prelude.{◌<◌, length};
ghost use Rattle.ft_types.specs.Spellable.{IsSpellable};

use core::hash::{Hasher, keyed_hasher};
use ft_isa::{Base, Instr, Subst};
use ft_types::{Program, RegType, joined};

/// The hasher's own keys: any two numbers would do.
const FIRST_KEY: u64 = 0x7461_6c66_745f_6b31;

const SECOND_KEY: u64 = 0x7461_6c66_745f_6b32;

/// Two numbers, each of which depends on all words noted in its lane. Each word is mixed into the number, the result is
/// multiplied by the lane's factor, and the two halves of the product are combined by exclusive or.
#[derive(Drop)]
struct Lanes {
    first: u64,
    second: u64,
}

/// The factors of the lanes: any two odd numbers whose bits look random would do.
const FIRST_FACTOR: u64 = 0x9e37_79b9_7f4a_7c15;

const SECOND_FACTOR: u64 = 0xd1b5_4a32_d192_ed03;

/// The exclusive or of the two halves of a product.
#[inline(always)]
fn folded_multiply(a: u64, b: u64) -> u64 {
    let product = a as u128 * b as u128;
    (product & 0xFFFF_FFFF_FFFF_FFFF) as u64 ^ (product >> 64) as u64
}

impl Lanes {
    /// Notes a word in each lane.
    #[inline(always)]
    fn note(&mut self, first: u64, second: u64) {
        self.first = folded_multiply(self.first ^ first, FIRST_FACTOR);
        self.second = folded_multiply(self.second ^ second, SECOND_FACTOR);
    }

    /// Notes a record: four bytes, a number and a word.
    #[inline(always)]
    fn note_record(&mut self, bytes: [u8; 4], number: u32, word: u64) {
        self.note(joined(u32::from_le_bytes(bytes), number), word);
    }
}

/// The number of a base: 0 for `int`, and above 0 for code types.
fn base_number(base: Base) -> u32 {
    match base {
        Base::Int => 0,
        Base::Code(t) => t as u32 + 1,
    }
}

/// Where a substitution's rows are, as one word. The node for its memory is noted separately.
fn rows_of(subst: Subst) -> u64 {
    joined(subst.first, subst.past)
}

/// Notes an instruction.
fn note_instr(lanes: &mut Lanes, instr: Instr) {
    match instr {
        Instr::OpReg { op, rd, rs, rt } => {
            let last = rt.number() as u32;
            lanes.note_record([0, op as u8, rd.number(), rs.number()], last, 0);
        }
        Instr::OpWord { op, rd, rs, value } => {
            let colour = value.colour as u32;
            lanes.note_record([1, op as u8, rd.number(), rs.number()], colour, value.word);
        }
        Instr::Mov { rd, value, basic } => {
            let bytes = [2, rd.number(), value.colour as u8, basic.refs];
            lanes.note_record(bytes, base_number(basic.base), value.word);
        }
        Instr::Ld { colour, rd, rs } => {
            lanes.note_record([3, colour as u8, rd.number(), rs.number()], 0, 0)
        }
        Instr::St { colour, rd, rs } => {
            lanes.note_record([4, colour as u8, rd.number(), rs.number()], 0, 0)
        }
        Instr::JmpG { rd } => lanes.note_record([5, rd.number(), 0, 0], 0, 0),
        Instr::JmpB { rd, subst } => {
            lanes.note_record([6, rd.number(), 0, 0], subst.memory, rows_of(subst))
        }
        Instr::BzG { rz, rd } => lanes.note_record([7, rz.number(), rd.number(), 0], 0, 0),
        Instr::BzB { rz, rd, subst } => {
            let bytes = [8, rz.number(), rd.number(), 0];
            lanes.note_record(bytes, subst.memory, rows_of(subst));
        }
        Instr::Halt => lanes.note_record([9, 0, 0, 0], 0, 0),
        Instr::Idx {
            rd,
            rs,
            first,
            length,
        } => lanes.note_record([10, rd.number(), rs.number(), 0], first, length as u64),
    }
}

/// Notes a register row.
fn note_row(lanes: &mut Lanes, row: RegType) {
    let bytes = [row.reg.number(), row.colour as u8, row.basic.refs, 0];
    lanes.note_record(bytes, row.expr, base_number(row.basic.base) as u64);
}

/// Notes code type `t` with its rows.
fn note_type<P: Program>(lanes: &mut Lanes, program: &P, t: u32)
    requires spellable { IsSpellable (P.object program.now) }
    requires there { t < length (P.object program.now).types }
{
    let head = program.code_type(t);
    let rows = joined(head.regs, head.queue);
    lanes.note_record([head.ints, 0, 0, 0], head.memory, rows);
    for j in 0..head.regs {
        note_row(lanes, program.reg_row(t, j));
    }
    for j in 0..head.queue {
        let (address, value) = program.queue_row(t, j);
        lanes.note(address as u64, value as u64);
    }
}

/// Notes the nodes. A large object is mostly nodes, so the lanes are kept in processor registers here.
#[inline(never)]
fn note_nodes<P: Program>(lanes: Lanes, program: &P) -> Lanes
    requires { IsSpellable (P.object program.now) }
{
    let mut lanes = lanes;
    for n in 0..program.node_count() {
        let (first, second) = program.node_words(n);
        lanes.note(first, second);
    }
    lanes
}

/// Notes the substitution rows, two at a time.
fn note_substs<P: Program>(lanes: &mut Lanes, program: &P)
    requires { IsSpellable (P.object program.now) }
{
    let rows = program.counts().substs;
    let mut waiting = 0;
    for n in 0..rows {
        let row = program.subst_row(n);
        if n % 2 == 1 {
            lanes.note(waiting as u64, row as u64);
        }
        waiting = row;
    }
    lanes.note(waiting as u64, rows as u64);
}

/// Two keys that depend on the nodes, the code types, the instructions and the substitution rows. So whoever makes an
/// object cannot know, short of trying, where in the table its forms will go.
pub fn keys_of<P: Program>(program: &P) -> (u64, u64)
    requires { IsSpellable (P.object program.now) }
{
    let counts = program.counts();
    let mut lanes = Lanes {
        first: FIRST_KEY,
        second: SECOND_KEY,
    };
    lanes.note(counts.types as u64, counts.instrs as u64);
    lanes = note_nodes(lanes, program);
    for t in 0..counts.types {
        note_type(&mut lanes, program, t);
    }
    for i in 0..counts.instrs {
        note_instr(&mut lanes, program.instr(i));
    }
    note_substs(&mut lanes, program);
    let mut hasher = keyed_hasher(lanes.first, lanes.second);
    let first = hasher.finish();
    hasher.write_u64(first);
    (first, hasher.finish())
}
