//! The commands of a script.
use crate::register::Register;
use ft_isa::Site;

/// The command of a line.
#[derive(Clone, Copy)]
pub enum Command<'s> {
    /// Takes this many steps, or fewer if the machine stops.
    Step(u64),
    /// Takes this many steps, or fewer if the machine stops or reaches a breakpoint.
    Go(u64),
    /// Goes back this many steps.
    Back(u64),
    /// Strikes a site.
    Zap { site: Site, value: u64 },
    /// Shows a register.
    Reg(Register),
    /// Shows the pending stores.
    Queue,
    /// Shows the cell with this name.
    Cell(&'s [u8]),
    /// Shows where the machine is.
    Where,
    /// Sets a breakpoint at an instruction of a block.
    Break { block: u64, index: u64 },
    /// Any other line.
    Bad,
}
