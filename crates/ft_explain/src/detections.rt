//! Says what a machine found when it detected a fault.
ghost use Rattle.std.specs.Prelude.{◌≡◌, ◌<◌, length};
ghost use Rattle.ft_types.specs.Spellable.{IsSpellable};

use crate::checks::say_code;
use ft_isa::{Colour, Instr, NoMemory, Reg};
use ft_machine::Machine;
use ft_mistakes::Page;
use ft_types::Program;

/// Writes the instruction at a code address if it is this one; otherwise returns false.
#[tactic(auto, using(ft_types::proofs::Counted::spellable_counted))]
fn say_code_at<P: Program>(
    page: &mut Page,
    program: &P,
    address: u64,
    instr: Instr,
) -> Result<bool, NoMemory>
    requires { IsSpellable (P.object program.now) }
{
    let Ok(i) = u32::try_from(address.saturating_sub(1)) else {
        return Ok(false);
    };
    if i >= program.counts().instrs {
        return Ok(false);
    }
    if program.instr(i) != instr {
        return Ok(false);
    }
    say_code(page, program, i, "`", "`: ")?;
    Ok(true)
}

/// Writes the instruction that is being executed. One of the program counters may have been struck since the fetch.
fn say_fetched<P: Program>(
    page: &mut Page,
    program: &P,
    machine: &Machine,
    instr: Instr,
) -> Result<(), NoMemory>
    requires { IsSpellable (P.object program.now) }
{
    if !say_code_at(page, program, machine.pc(Colour::Green), instr)? {
        say_code_at(page, program, machine.pc(Colour::Blue), instr)?;
    }
    Ok(())
}

/// Says why a fetch detected a fault.
fn say_counters(page: &mut Page, machine: &Machine) -> Result<(), NoMemory> {
    let green = machine.pc(Colour::Green);
    let blue = machine.pc(Colour::Blue);
    if green == blue {
        return page.say(format_args!(
            "both program counters are {green}, where there is no instruction"
        ));
    }
    page.say(format_args!("the green program counter is {green}, but the blue one is {blue}"))
}

/// Says why a blue store detected a fault.
fn say_store(page: &mut Page, machine: &Machine, rd: Reg, rs: Reg) -> Result<(), NoMemory> {
    let Some((address, value)) = machine.queue().get(0) else {
        return page.say("the queue is empty");
    };
    let to = machine.reg(rd).word;
    let word = machine.reg(rs).word;
    if to != address {
        let number = rd.number();
        return page.say(format_args!(
            "r{number} is {to}, and the oldest store in the queue has the address {address}"
        ));
    }
    if word != value {
        let number = rs.number();
        return page.say(format_args!(
            "r{number} is {word}, and the oldest store in the queue has the value {value}"
        ));
    }
    page.say(format_args!("no cell has the address {to}"))
}

/// Says why a blue jump, or a blue branch that is taken, detected a fault.
fn say_target(page: &mut Page, machine: &Machine, rd: Reg) -> Result<(), NoMemory> {
    let d = machine.d();
    if d == 0 {
        return page.say("the green jump or branch set no target (d is 0)");
    }
    let number = rd.number();
    let target = machine.reg(rd).word;
    page.say(format_args!("r{number} is {target}, but the green jump or branch set d to {d}"))
}

/// Says why a blue branch detected a fault.
fn say_branch(page: &mut Page, machine: &Machine, rz: Reg, rd: Reg) -> Result<(), NoMemory> {
    let word = machine.reg(rz).word;
    if word == 0 {
        return say_target(page, machine, rd);
    }
    let number = rz.number();
    let d = machine.d();
    page.say(format_args!("r{number} is {word}, but the green branch was taken (d is {d})"))
}

/// Says why an instruction detected a fault.
fn say_found(page: &mut Page, machine: &Machine, instr: Instr) -> Result<(), NoMemory> {
    match instr {
        Instr::Ld { rs, .. } => {
            let number = rs.number();
            let address = machine.reg(rs).word;
            page.say(format_args!(
                "r{number} is {address}, no cell has that address, and no `--wild` answer is left"
            ))
        }
        Instr::St {
            colour: Colour::Green,
            ..
        } => page.say("the queue is full: it holds eight stores"),
        Instr::St {
            colour: Colour::Blue,
            rd,
            rs,
        } => say_store(page, machine, rd, rs),
        Instr::JmpG { .. } | Instr::BzG { .. } => {
            let d = machine.d();
            page.say(format_args!(
                "d is {d} but must be 0: another green jump or branch is still waiting for its blue half"
            ))
        }
        Instr::JmpB { rd, .. } => say_target(page, machine, rd),
        Instr::BzB { rz, rd, .. } => say_branch(page, machine, rz, rd),
        _ => Ok(()),
    }
}

/// Says at which instruction a machine has detected a fault, and why.
pub(crate) fn say_detection<P: Program>(
    page: &mut Page,
    program: &P,
    machine: &Machine,
) -> Result<(), NoMemory>
    requires { IsSpellable (P.object program.now) }
{
    match machine.fetched() {
        None => say_counters(page, machine),
        Some(instr) => {
            say_fetched(page, program, machine, instr)?;
            say_found(page, machine, instr)
        }
    }
}
