//! Laws of the machine's step, for all objects, states and answers to wild loads. Each function does
//! nothing: its clause is the law.
ghost use Rattle.std.specs.Prelude.{◌≡◌, List};
ghost use Rattle.ft_isa.specs.declared.plan.Wild.{Wild};
ghost use Rattle.ft_types.specs.declared.object.Object.{Object};
ghost use Rattle.ft_semantics.specs.declared.status.Status.TheVariants.{Running};
ghost use Rattle.ft_semantics.specs.State.{State};
ghost use Rattle.ft_semantics.specs.Step.{step, quiet, IsTheTable, IsStopped};

/// The step of a running machine agrees with the table of steps: for every object, state and remaining answers to wild
/// loads, exactly one row of the table applies, and the step is that row's.
pub fn steps_are_the_table()
    ensures { (o : Object) (s : State) (w : List Wild) → s.status ≡ Running → IsTheTable o s w }
{}

/// A machine that is Done or Detected does not change, takes no answer and has no output.
pub fn stopped_machines_stay()
    ensures { (o : Object) (s : State) (w : List Wild) → IsStopped s → step o s w ≡ quiet s w }
{}
