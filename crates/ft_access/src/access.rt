//! The table of accesses: what the step that fetches or executes an instruction does to a site.
ghost use Rattle.std.specs.Prelude.{◌≡◌};
ghost use Rattle.ft_isa.specs.Instructions.{is_register, number_of, reads};
ghost use Rattle.ft_access.specs.Access.{entry_after, is_blue_jump, overwrites, reads_counters, reads_d, reads_entry, reads_site};
ghost use Rattle.ft_access.specs.Access.{site_after};

use ft_isa::{Instr, Reg, Site};

/// Whether an instruction reads d: a jump or a branch.
pub(crate) fn reads_d(instr: &Instr) -> bool
    ensures { result ≡ reads_d instr.now }
{
    match instr {
        Instr::JmpG { .. } | Instr::JmpB { .. } | Instr::BzG { .. } | Instr::BzB { .. } => true,
        _ => false,
    }
}

/// Whether an instruction reads the counters.
pub(crate) fn reads_counters(instr: &Instr) -> bool
    ensures { result ≡ reads_counters instr.now }
{
    match instr {
        Instr::JmpB { .. } | Instr::Halt => false,
        _ => true,
    }
}

/// Whether it is a blue jump, which overwrites the counters.
pub(crate) fn is_blue_jump(instr: &Instr) -> bool
    ensures { result ≡ is_blue_jump instr.now }
{
    match instr {
        Instr::JmpB { .. } => true,
        _ => false,
    }
}

/// Whether an instruction reads a pending entry.
pub(crate) fn reads_entry(instr: &Instr, entry: u8) -> bool
    ensures { result ≡ reads_entry instr.now entry }
{
    match instr {
        Instr::Ld { colour, .. } => colour.is_green(),
        Instr::St { colour, .. } => !colour.is_green() && entry == 0,
        _ => false,
    }
}

/// The number of a pending entry after an instruction that does not read it.
fn entry_after(instr: &Instr, entry: u8) -> u8
    ensures { result ≡ entry_after instr.now entry }
{
    if instr.is_blue_store() && entry > 0 {
        entry - 1
    } else {
        entry
    }
}

/// Whether a register is given and is this one.
fn is_register(given: Option<Reg>, register: Reg) -> bool
    ensures { result ≡ is_register (number_of given) register.number }
{
    match given {
        Some(other) => other.number() == register.number(),
        None => false,
    }
}

/// Whether an instruction reads a register.
fn reads_register(instr: &Instr, register: Reg) -> bool
    ensures { result ≡ reads instr.now register.number }
{
    let first = instr.first_read();
    let second = instr.second_read();
    let by_first = is_register(first, register);
    let by_second = is_register(second, register);
    by_first || by_second
}

/// Whether a step reads the word at a site, by the instruction that is fetched before it, if any.
pub fn reads_site(fetched: &Option<Instr>, site: Site) -> bool
    ensures { result ≡ reads_site fetched.now site }
{
    match fetched {
        None => match site {
            Site::PcG | Site::PcB => true,
            _ => false,
        },
        Some(instr) => match site {
            Site::R(register) => reads_register(instr, register),
            Site::D => reads_d(instr),
            Site::PcG | Site::PcB => reads_counters(instr),
            Site::QAddr(entry) | Site::QVal(entry) => reads_entry(instr, entry),
        },
    }
}

/// Whether a step that does not read a site overwrites its word, unless it stops the machine.
pub fn overwrites(fetched: &Option<Instr>, site: Site) -> bool
    ensures { result ≡ overwrites fetched.now site }
{
    match fetched {
        None => false,
        Some(instr) => match site {
            Site::R(register) => is_register(instr.written(), register),
            Site::PcG | Site::PcB => is_blue_jump(instr),
            _ => false,
        },
    }
}

/// The site of a word after a step that neither reads nor overwrites it.
pub fn site_after(fetched: &Option<Instr>, site: Site) -> Site
    ensures { result ≡ site_after fetched.now site }
{
    match fetched {
        None => site,
        Some(instr) => match site {
            Site::QAddr(entry) => Site::QAddr(entry_after(instr, entry)),
            Site::QVal(entry) => Site::QVal(entry_after(instr, entry)),
            _ => site,
        },
    }
}
