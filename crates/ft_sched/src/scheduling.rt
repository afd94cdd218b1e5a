//! The schedule of a program.
ghost use Rattle.std.specs.Prelude.{◌≡◌, ℕ, List, None, IfOk};
ghost use Rattle.ft_isa.specs.declared.plan.Wild.{Wild};
ghost use Rattle.ft_types.specs.Spellable.{IsSpellable};
ghost use Rattle.ft_types.specs.declared.object.Object.{Object};
ghost use Rattle.ft_typing.specs.Accepted.{IsAccepted};
ghost use Rattle.ft_exchange.specs.Alike.{RunsAlike};
ghost use Rattle.ft_exchange.specs.Scheduled.{IsScheduled};

use crate::blocks::schedule_block;
use crate::order::Order;
use ft_checker::Checked;
use ft_isa::NoMemory;
use ft_types::{Object, Program, Table, copy_with_instrs};
use std::alloc::Global;

/// The schedule of a program.
fn schedule_program<P: Program>(alloc: Global, program: &P) -> Result<Object, NoMemory>
    requires { IsSpellable (P.object program.now) }
    ensures { IfOk result (λ s. IsScheduled (P.object program.now) s) }
{
    let mut order = Order::new(alloc);
    for b in 0..program.counts().blocks {
        schedule_block(program, &mut order, b)?;
    }
    copy_with_instrs(alloc, program, Table::from_vec(order.into_laid()))
}

/// The schedule of a checked program: leading instructions, those of the green computation, are moved ahead of
/// independent trailing ones, by permitted exchanges of neighbours until none is left.
///
/// Every order of exchanges leads to the same schedule. The schedule is spellable and accepted, so its run tolerates
/// one fault. Without a fault, its run has the same status as the program's run after each number of steps; its outputs
/// are a prefix of the program's outputs, are equal to them at the end, and come at most 131,072 steps later. The only
/// error is `NoMemory`.
///
/// The idea of a green computation that leads and a blue one that repeats it is due to Perry, Mackey, Reis, Ligatti,
/// August and Walker, "Fault-tolerant Typed Assembly Language", PLDI 2007.
pub fn schedule<'a, P: Program>(alloc: Global, checked: &Checked<'a, P>) -> Result<Object, NoMemory>
    ensures scheduled { IfOk result (λ s. IsScheduled (P.object checked.now) s) }
    ensures one { IfOk result (λ s. (t : Object) → IsScheduled (P.object checked.now) t → t ≡ s) }
    ensures spellable { IfOk result (λ s. IsSpellable s) }
    ensures accepted { IfOk result (λ s. IsAccepted s) }
    ensures runs { IfOk result (λ s. (w : List Wild) (n : ℕ) → RunsAlike (P.object checked.now) s w n) }
{
    let program = checked.program();
    let scheduled = schedule_program(alloc, program)?;
    Ok(scheduled)
}
