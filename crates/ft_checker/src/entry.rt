//! The code type with which a run begins.
ghost use Rattle.std.specs.Prelude.{◌≡◌, ◌<◌, ◌==◌, ◌&&◌, length, slice_get};
ghost use Rattle.ft_typing.specs.Accepted.{is_entry_type, is_memory_variable};
ghost use Rattle.ft_types.specs.Spellable.{IsSpellable};

use ft_static::Shape;
use ft_types::{Program, TypeHead};

/// Whether a node is the memory variable.
fn is_memory_variable<P: Program>(program: &P, n: u32) -> bool
    requires { n < length (P.object program.now).nodes }
    ensures { result ≡ is_memory_variable (slice_get (P.object program.now).nodes n) }
{
    match program.node(n).shape {
        Shape::Memory => true,
        _ => false,
    }
}

/// Whether a code type has no integer variable and no row.
fn is_bare(head: TypeHead) -> bool
    ensures { result ≡ ((head.ints == 0) && (head.regs == 0) && (head.queue == 0)) }
{
    head.ints == 0 && head.regs == 0 && head.queue == 0
}

/// Whether a run may begin with code type `t`: it has no integer variable, no register row and no queue
/// row, and its memory is the memory variable.
pub fn is_entry_type<P: Program>(program: &P, t: u32) -> bool
    requires spellable { IsSpellable (P.object program.now) }
    requires there { t < length (P.object program.now).types }
    ensures { result ≡ is_entry_type (P.object program.now) t }
{
    let head = program.code_type(t);
    if is_bare(head) {
        is_memory_variable(program, head.memory)
    } else {
        false
    }
}
