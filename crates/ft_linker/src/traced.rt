//! The registers that hold a code address, as the walk tracks them.
ghost use Rattle.std.specs.Prelude.{◌≡◌};
ghost use Rattle.std.specs.FinMap as finite;
ghost use Rattle.ft_isa.specs.Instructions.{number_of};
ghost use Rattle.ft_modules.specs.CodeWalk.{Entered, are_free, both_free, claimed, code_claimed, entered_after, entered_with, is_entered, is_free, is_free_target, is_traced};

use ft_isa::{Base, Basic, Instr, Reg};
use ft_types::{Object, RegType, Table};

/// The code type that a basic type claims, if it is `code T`.
fn code_claimed(basic: Basic) -> Option<u16>
    ensures { result ≡ code_claimed basic }
{
    match basic {
        Basic {
            refs: 0,
            base: Base::Code(code_type),
        } => Some(code_type),
        _ => None,
    }
}

/// The code type that an instruction claims for the word that it writes.
fn claimed(instr: Instr) -> Option<u16>
    ensures { result ≡ claimed instr }
{
    match instr {
        Instr::Mov { basic, .. } => code_claimed(basic),
        _ => None,
    }
}

/// For each register, the code type with which it is entered, if it is.
#[derive(Drop)]
pub struct Traced {
    types: [Option<u16>; 64],
}

impl Traced {
    ghost use Rattle.ft_linker.specs.Stands.{Stands};

    /// The start of a walk, where no register is entered.
    pub fn new() -> Traced
        ensures { Stands result finite.empty }
    {
        Traced { types: [None; 64] }
    }

    /// The code type with which a register is entered, if it is.
    fn get(&self, r: Reg) -> Option<u16>
        ensures { (e : Entered) → Stands self.now e → result ≡ finite.get e r.number }
    {
        self.types[r.number() as usize]
    }

    /// Enters a register, or removes it.
    fn enter(&mut self, r: Reg, target: Option<u16>)
        ensures { (e : Entered) → Stands self.old e → Stands self.new (entered_with r.number target e) }
    {
        self.types[r.number() as usize] = target;
    }

    /// Whether a register is not entered.
    fn is_free(&self, r: Reg) -> bool
        ensures { (e : Entered) → Stands self.now e → result ≡ is_free e r }
    {
        !self.get(r).is_some()
    }

    /// Whether a register is entered.
    fn is_entered(&self, r: Reg) -> bool
        ensures { (e : Entered) → Stands self.now e → result ≡ is_entered e r }
    {
        self.get(r).is_some()
    }

    /// Whether neither of two registers, if given, is entered.
    fn both_free(&self, first: Option<Reg>, second: Option<Reg>) -> bool
        ensures { (e : Entered) → Stands self.now e → result ≡ both_free e (number_of first) (number_of second) }
    {
        match first {
            Some(p) => match second {
                Some(q) => self.is_free(p) && self.is_free(q),
                None => self.is_free(p),
            },
            None => match second {
                Some(q) => self.is_free(q),
                None => true,
            },
        }
    }

    /// Whether no row is for an entered register.
    fn are_free(&self, rows: &Table<RegType>) -> bool
        ensures { (e : Entered) → Stands self.now e → result ≡ are_free e rows.now }
    {
        for j in 0..rows.len() {
            let row = *rows.at(j);
            if !self.is_free(row.reg) {
                return false;
            }
        }
        true
    }

    /// Whether a target register is entered, and its code type has no row for an entered register. `target` is the code
    /// type with which it is entered, if it is.
    fn is_free_target(&self, object: &Object, target: Option<u16>) -> bool
        ensures { (e : Entered) → Stands self.now e → result ≡ is_free_target object.now e target }
    {
        let Some(code_type) = target else {
            return false;
        };
        let code_type = code_type as usize;
        if code_type < object.types.len() {
            self.are_free(&object.types.at(code_type).regs)
        } else {
            true
        }
    }

    /// Whether the walk passes an instruction.
    pub fn is_traced(&self, object: &Object, instr: Instr) -> bool
        ensures { (e : Entered) → Stands self.now e → result ≡ is_traced object.now e instr }
    {
        match instr {
            Instr::JmpG { rd } => self.is_entered(rd),
            Instr::JmpB { rd, .. } => self.is_free_target(object, self.get(rd)),
            Instr::BzG { rz, rd } => self.is_free(rz) && self.is_entered(rd),
            Instr::BzB { rz, rd, .. } => {
                self.is_free(rz) && self.is_free_target(object, self.get(rd))
            }
            other => self.both_free(other.first_read(), other.second_read()),
        }
    }

    /// Updates the entered registers after an instruction.
    pub fn pass(&mut self, instr: Instr)
        ensures { (e : Entered) → Stands self.old e → Stands self.new (entered_after instr e) }
    {
        if let Some(rd) = instr.written() {
            self.enter(rd, claimed(instr));
        }
    }
}
