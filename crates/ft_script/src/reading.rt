//! Lines, read as commands.
ghost use Rattle.std.specs.Prelude.{◌≡◌, ◌≢◌, ℕ, List, ◌++◌, codes, decimal, IfSome, IfNone};
ghost use Rattle.ft_isa.specs.Words.{IsWord};
ghost use Rattle.ft_isa.specs.PlanText.{IsSite, site_text};
ghost use Rattle.ft_isa.specs.declared.plan.Site as site;
ghost use Rattle.ft_script.specs.Commands.{IsCount, IsLineWord, register_text, Gives};
ghost use Rattle.ft_script.specs.Reads.{command_of};
ghost use Rattle.ft_script.specs.declared.register.Register as register;

use crate::command::Command;
use crate::register::Register;
use crate::words::{is_line_word, is_same, read_count, read_register};
use ft_isa::{Site, read_number, read_site};
use ft_text::{after, split_word};

/// A number of steps after a piece.
fn count_after(line: &[u8], piece: &[u8]) -> Option<u64>
    ensures some { IfSome result (λ n. IsCount n × (line.now ≡ piece.now ++ decimal n)) }
    ensures none { IfNone result ((n : ℕ) → IsCount n → line.now ≢ piece.now ++ decimal n) }
{
    match after(line, piece) {
        Some(number) => read_count(number),
        None => None,
    }
}

/// The site and the value of a strike.
fn read_zap(line: &[u8]) -> Option<(Site, u64)>
    ensures some { IfSome result (λ p. IsSite p.0 × IsWord p.1 × (line.now ≡ codes "zap " ++ site_text p.0 ++ codes " " ++ decimal p.1)) }
    ensures none { IfNone result ((s : site.Site) (value : ℕ) → IsSite s → IsWord value → line.now ≢ codes "zap " ++ site_text s ++ codes " " ++ decimal value) }
{
    let Some(words) = after(line, b"zap ") else {
        return None;
    };
    let Some((site, value)) = split_word(words) else {
        return None;
    };
    let Some(site) = read_site(site) else {
        return None;
    };
    let Some(value) = read_number(value) else {
        return None;
    };
    Some((site, value))
}

/// The register to show.
fn read_reg(line: &[u8]) -> Option<Register>
    ensures some { IfSome result (λ r. line.now ≡ codes "reg " ++ register_text r) }
    ensures none { IfNone result ((r : register.Register) → line.now ≢ codes "reg " ++ register_text r) }
{
    match after(line, b"reg ") {
        Some(word) => read_register(word),
        None => None,
    }
}

/// The name of the cell to show.
fn read_cell(line: &[u8]) -> Option<&[u8]>
    ensures some { IfSome result (λ name. IsLineWord name.now × (line.now ≡ codes "cell " ++ name.now)) }
    ensures none { IfNone result ((name : List ℕ) → IsLineWord name → line.now ≢ codes "cell " ++ name) }
{
    let Some(name) = after(line, b"cell ") else {
        return None;
    };
    if is_line_word(name) { Some(name) } else { None }
}

/// The block and the instruction of a breakpoint.
fn read_break(line: &[u8]) -> Option<(u64, u64)>
    ensures some { IfSome result (λ p. IsWord p.0 × IsWord p.1 × (line.now ≡ codes "break " ++ decimal p.0 ++ codes " " ++ decimal p.1)) }
    ensures none { IfNone result ((block index : ℕ) → IsWord block → IsWord index → line.now ≢ codes "break " ++ decimal block ++ codes " " ++ decimal index) }
{
    let Some(words) = after(line, b"break ") else {
        return None;
    };
    let Some((block, index)) = split_word(words) else {
        return None;
    };
    let Some(block) = read_number(block) else {
        return None;
    };
    let Some(index) = read_number(index) else {
        return None;
    };
    Some((block, index))
}

/// The command of a line.
pub fn read_command(line: &[u8]) -> Command<'_>
    ensures { Gives line.now (command_of result) }
{
    if let Some(count) = count_after(line, b"step ") {
        return Command::Step(count);
    }
    if let Some(count) = count_after(line, b"go ") {
        return Command::Go(count);
    }
    if let Some(count) = count_after(line, b"back ") {
        return Command::Back(count);
    }
    if let Some(zap) = read_zap(line) {
        return Command::Zap {
            site: zap.0,
            value: zap.1,
        };
    }
    if let Some(register) = read_reg(line) {
        return Command::Reg(register);
    }
    if is_same(line, b"queue") {
        return Command::Queue;
    }
    if let Some(name) = read_cell(line) {
        return Command::Cell(name);
    }
    if is_same(line, b"where") {
        return Command::Where;
    }
    if let Some((block, index)) = read_break(line) {
        return Command::Break { block, index };
    }
    Command::Bad
}
