//! What is known of the registers before an instruction: colours and basic types.
ghost use Rattle.std.specs.Prelude.{◌≡◌, ◌≤◌, ◌<◌, length};
ghost use Rattle.ft_types.specs.Objects.{reg_rows};
ghost use Rattle.ft_types.specs.Spellable.{IsSpellable};

use ft_isa::{Basic, Colour, INT, Instr, Reg};
use ft_types::Program;

/// The colour and the basic type of a register.
#[derive(Clone, Copy)]
pub(crate) struct RegKnown {
    pub colour: Colour,
    pub basic: Basic,
}

/// What is known of the 64 registers.
#[derive(Drop)]
pub(crate) struct Known {
    regs: [Option<RegKnown>; 64],
}

impl Known {
    /// Nothing is known.
    fn nothing() -> Known {
        Known { regs: [None; 64] }
    }

    /// What is known of a register.
    pub fn reg(&self, reg: Reg) -> Option<RegKnown> {
        self.regs[reg.number() as usize]
    }

    /// Sets what is known of a register.
    fn put(&mut self, reg: Reg, known: Option<RegKnown>) {
        self.regs[reg.number() as usize] = known;
    }

    /// Records what the register rows of code type `t` say.
    fn put_rows<P: Program>(&mut self, program: &P, t: u32, count: u32)
        requires there { t < length (P.object program.now).types }
        requires count { count ≡ length (reg_rows (P.object program.now) t) }
    {
        for j in 0..count {
            let row = program.reg_row(t, j);
            self.put(
                row.reg,
                Some(RegKnown {
                    colour: row.colour,
                    basic: row.basic,
                }),
            );
        }
    }

    /// Gives a register the colour of another one and this basic type.
    fn derive(&mut self, rd: Reg, rs: Reg, basic: Option<Basic>) {
        let known = match (self.reg(rs), basic) {
            (Some(known), Some(basic)) => Some(RegKnown {
                colour: known.colour,
                basic,
            }),
            _ => None,
        };
        self.put(rd, known);
    }

    /// The type that the address in a register refers to.
    pub fn referred(&self, rs: Reg) -> Option<Basic> {
        let basic = self.reg(rs)?.basic;
        let refs = basic.refs.checked_sub(1)?;
        Some(Basic { refs, ..basic })
    }

    /// Records what an accepted instruction changes.
    fn pass<P: Program>(&mut self, program: &P, instr: Instr)
        requires { IsSpellable (P.object program.now) }
    {
        match instr {
            Instr::OpReg { rd, rs, .. } | Instr::OpWord { rd, rs, .. } => {
                self.derive(rd, rs, Some(INT));
            }
            Instr::Mov { rd, value, basic } => {
                let colour = value.colour;
                self.put(rd, Some(RegKnown { colour, basic }));
            }
            Instr::Ld { rd, rs, .. } => {
                let basic = self.referred(rs);
                self.derive(rd, rs, basic);
            }
            Instr::Idx { rd, rs, first, .. } => {
                let basic = address_type(program, first);
                self.derive(rd, rs, basic);
            }
            _ => {}
        }
    }

    /// What is known before instruction `i` of the block that begins with instruction `start` and has code type `t`.
    #[tactic(auto, using(ft_types::proofs::Counted::spellable_counted))]
    pub fn before<P: Program>(program: &P, t: u32, start: u32, i: u32) -> Known
        requires spellable { IsSpellable (P.object program.now) }
        requires there { t < length (P.object program.now).types }
        requires within { i ≤ length (P.object program.now).instrs }
    {
        let mut known = Known::nothing();
        let head = program.code_type(t);
        known.put_rows(program, t, head.regs);
        for k in start..i {
            known.pass(program, program.instr(k));
        }
        known
    }
}

/// The type of the address of cell `k`.
#[tactic(auto, using(ft_types::proofs::Counted::spellable_counted))]
fn address_type<P: Program>(program: &P, k: u32) -> Option<Basic>
    requires { IsSpellable (P.object program.now) }
{
    if k >= program.counts().cells {
        return None;
    }
    let basic = program.cell(k).basic;
    let refs = basic.refs.checked_add(1)?;
    Some(Basic { refs, ..basic })
}
