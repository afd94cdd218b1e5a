//! What is known where a block begins.
ghost use Rattle.std.specs.Prelude.{◌≡◌, ◌+◌, ◌*◌, ◌<◌, ◌≤◌, IfOk, length, map, []};
ghost use Rattle.std.specs.FinMap as finite;
ghost use Rattle.ft_norm.specs.Held.{Keeps};
ghost use Rattle.ft_typing.specs.Context.{queue_pair, registers_after};
ghost use Rattle.ft_types.specs.Objects.{queue_rows, reg_rows};
ghost use Rattle.ft_types.specs.Spellable.{IsSpellable};
ghost use Rattle.ft_contexts.specs.Contexts.{HoldsOwn, HoldsQueue, HoldsRegisters, RegistersNameTypes, pair_in, registers_in};
ghost use Rattle.ft_contexts.specs.Costs.{tree_cost};

use crate::register::RegForm;
use crate::sequence::Sequence;
use crate::variables::OwnVariables;
use ft_isa::NoMemory;
use ft_meter::Meter;
use ft_norm::{Form, Interner};
use ft_types::Program;
use std::alloc::Global;

/// The maximum number of pairs in a static queue.
pub const QUEUE_ROOM: usize = 8;

/// What code type `t` says about each register, in the order of the registers' numbers.
pub fn start_registers<P: Program, M: Meter>(
    program: &P,
    t: u32,
    rows: u32,
    own: &mut OwnVariables,
    forms: &mut Interner,
    meter: &mut M,
) -> Result<[Option<RegForm>; 64], NoMemory>
    requires spellable { IsSpellable (P.object program.now) }
    requires there { t < length (P.object program.now).types }
    requires rows { rows ≡ length (reg_rows (P.object program.now) t) }
    requires own { HoldsOwn (P.object program.now) forms.old own.old }
    ensures kept { Keeps forms.old forms.new }
    ensures own { HoldsOwn (P.object program.now) forms.new own.new }
    ensures known { IfOk result (λ xs. registers_in forms.new 0 xs ≡ registers_after (P.object program.now) finite.empty (reg_rows (P.object program.now) t)) }
    ensures held { IfOk result (HoldsRegisters forms.new) }
    ensures steps { M.counted meter.new ≤ M.counted meter.old + rows * tree_cost (P.object program.now) 0 }
    ensures types { IfOk result (RegistersNameTypes (length (P.object program.now).types)) }
{
    let mut registers = [None; 64];
    for j in 0..rows {
        let row = program.reg_row(t, j);
        let form = own.integer(program, row.expr, forms, meter)?;
        registers[row.reg.number() as usize] = Some(RegForm {
            colour: row.colour,
            basic: row.basic,
            form,
        });
    }
    Ok(registers)
}

/// The pairs that code type `t` says are pending.
pub fn start_queue<P: Program, M: Meter>(
    alloc: Global,
    program: &P,
    t: u32,
    rows: u32,
    own: &mut OwnVariables,
    forms: &mut Interner,
    meter: &mut M,
) -> Result<Sequence<(Form, Form)>, NoMemory>
    requires spellable { IsSpellable (P.object program.now) }
    requires there { t < length (P.object program.now).types }
    requires rows { rows ≡ length (queue_rows (P.object program.now) t) }
    requires own { HoldsOwn (P.object program.now) forms.old own.old }
    ensures kept { Keeps forms.old forms.new }
    ensures own { HoldsOwn (P.object program.now) forms.new own.new }
    ensures pairs { IfOk result (λ q. map (pair_in forms.new) q ≡ map (queue_pair (P.object program.now)) (queue_rows (P.object program.now) t)) }
    ensures held { IfOk result (HoldsQueue forms.new) }
    ensures steps { M.counted meter.new ≤ M.counted meter.old + rows * (2 * tree_cost (P.object program.now) 0) }
{
    let mut queue = Sequence::with_room(alloc, QUEUE_ROOM)?;
    for j in 0..rows {
        let (address, value) = program.queue_row(t, j);
        let address = own.integer(program, address, forms, meter)?;
        let value = own.integer(program, value, forms, meter)?;
        queue.push((address, value))?;
    }
    Ok(queue)
}
