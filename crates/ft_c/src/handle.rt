//! C's reference to a run that continues across calls: a pointer to it, or none.
ghost use Rattle.std.specs.Prelude.{◌≡◌, Option, None, Some};
ghost use Rattle.std.specs.Option.{option_map};
ghost use Rattle.ft_c.specs.Held.{held};
ghost use Rattle.ft_embed.specs.Tasks.{TaskRun};

use crate::loose::Loose;
use ft_embed::Task;
use std::alloc::Global;
use std::marker::Model;
use std::mem::replace;
use std::ptr::null_mut;

/// A run that C owns: whether there is one, and its address.
#[repr(C)]
#[derive(Drop)]
pub struct Handle {
    there: u64,
    at: *mut u8,
    ghost task: { Option TaskRun },
}

impl Model for Handle {
    ghost also_owns = { λ h. held h.there h.at h.task };
}

impl Handle {
    /// A handle without a run.
    fn empty() -> Handle
        ensures { result.task ≡ None }
    {
        Handle {
            there: 0,
            at: null_mut(),
        }
    }

    /// The handle of this run.
    fn seal(loose: Loose<Task, Global>) -> Handle
        ensures { result.task ≡ Some loose.value }
    {
        let Loose { at, alloc: _ } = loose;
        Handle {
            there: 1,
            at: at as *mut u8,
        }
    }

    /// The run, if there is one.
    fn unseal(self, alloc: Global) -> Option<Loose<Task, Global>>
        ensures { option_map (λ l. l.value) result ≡ self.task }
    {
        let Handle { there, at } = self;
        if there == 0 {
            None
        } else {
            Some(Loose {
                at: at as *mut Task,
                alloc,
            })
        }
    }
}

/// Takes the run out of a handle and leaves it empty.
pub(crate) fn take(alloc: Global, machine: &mut Handle) -> Option<Box<Task, Global>>
    ensures taken { option_map (λ b. b.value) result ≡ machine.old.task }
    ensures emptied { machine.new.task ≡ None }
{
    let held = replace(machine, Handle::empty());
    match held.unseal(alloc) {
        Some(loose) => Some(loose.into_box()),
        None => None,
    }
}

/// Puts a run into a handle.
pub(crate) fn put(machine: &mut Handle, task: Box<Task, Global>)
    ensures { machine.new.task ≡ Some task.value }
{
    *machine = Handle::seal(Loose::of(task));
}
