//! The command `demo`.
ghost use Rattle.std.specs.Prelude.{◌≡◌, ◌≢◌, ◌≤◌};
ghost use Rattle.ft_tool.specs.Demonstrations.{ShowsSample};
ghost use Rattle.ft_tool.specs.Endings.{Ends};

use crate::ending::Ending;
use ft_demo::{DemoEnd, demo};
use ft_edge::Sink;
use std::alloc::Global;

/// Runs the demonstration with the object of this many turns.
pub(crate) fn demonstrate<K: Sink>(alloc: Global, turns: u32, out: &mut K) -> Ending
    requires some { 1 ≤ turns }
    requires few { turns ≤ 10921 }
    ensures { Ends result (ShowsSample turns)
        (K.log out.old) (K.log out.new) ⊥ }
{
    match demo(alloc, turns, out) {
        DemoEnd::Finished => Ending::Done,
        DemoEnd::WriteFault => Ending::WriteFailed,
        DemoEnd::NoMemory => Ending::NoMemory,
    }
}
