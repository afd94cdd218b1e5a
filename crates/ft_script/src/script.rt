//! Scripts, read as commands.
ghost use Rattle.std.specs.Prelude.{◌≡◌, ◌≤◌, length, map, IfOk};
ghost use Rattle.ft_script.specs.Commands.{AreCommands};
ghost use Rattle.ft_script.specs.Reads.{command_of};

use crate::command::Command;
use crate::reading::read_command;
use ft_isa::NoMemory;
use ft_text::read_line;
use std::alloc::Global;

/// The commands of a script's lines, one each; `NoMemory` if there is no room for them.
pub fn read_script(alloc: Global, script: &[u8]) -> Result<Vec<Command<'_>>, NoMemory>
    ensures commands { IfOk result (λ commands. AreCommands script.now (map command_of commands.items)) }
    ensures few { IfOk result (λ commands. length commands.items ≤ length script.now) }
{
    let mut commands = Vec::new(alloc);
    let mut rest = script;
    while let Some((line, after)) = read_line(rest) {
        commands.push(read_command(line)).map_err(|_| NoMemory)?;
        rest = after;
    }
    Ok(commands)
}
