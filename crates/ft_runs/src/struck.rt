//! Runs that were struck once.
ghost use Rattle.std.specs.Prelude.{◌≡◌, ◌⊎◌, ◌+◌, ◌<◌, ◌^◌, true, None, Some};
ghost use Rattle.ft_semantics.specs.Run.{state_after, wild_after};
ghost use Rattle.ft_semantics.specs.Step.{step};
ghost use Rattle.ft_semantics.specs.Strike.{is_there};
ghost use Rattle.ft_machine.specs.Answers.{told};
ghost use Rattle.ft_tolerance.specs.Alike.{IsAlikeAfter};
ghost use Rattle.ft_runs.specs.Runs.{struck_now};

use ft_isa::{Strike, Wild};
use ft_machine::{Machine, Stepped, WildLeft};
use ft_types::Program;
use std::marker::Model;

/// The run of an accepted program that was struck once. It cannot be struck again. By its invariant, its machine is
/// like the unstruck run's after the same number of steps, or detected. Contracts see it as the program's object, the
/// strike, the answers to wild loads and the number of steps taken.
#[derive(Drop)]
pub struct Struck<'a, 'w, P: Program> {
    pub(crate) program: &'a P,
    pub(crate) machine: Machine,
    pub(crate) taken: u64,
    pub(crate) strike: Strike,
    pub(crate) wild: &'w [Wild],
    pub(crate) left: WildLeft<'w>,
}

impl<'a, 'w, P: Program> Model for Struck<'a, 'w, P> {
    ghost use Rattle.ft_runs.specs.Runs.{StruckRun, IsStruckRun};

    ghost Value = { StruckRun };

    ghost view = { λ s. record { object = P.object s.program.now; strike = s.strike; wild = s.wild.now; taken = s.taken } };

    ghost invariant = { λ s. IsStruckRun (record { object = P.object s.program.now; strike = s.strike; wild = s.wild.now; taken = s.taken }) s.machine s.left };
}

impl<'a, 'w, P: Program> Struck<'a, 'w, P> {
    /// Takes one step. If the run has stopped, only the number of steps taken changes. The result is that of the run
    /// without the strike after the same number of steps, or `Detected`.
    pub fn step(&mut self) -> Stepped
        requires { self.old.taken < 2 ^ 63 }
        ensures taken { self.new ≡ record self.old { taken = self.old.taken + 1 } }
        ensures answer { result ≡ told (step self.old.object (struck_now self.old) (wild_after self.old.object (Some self.old.strike) self.old.wild self.old.taken)) }
        ensures masked { (result ≡ told (step self.old.object (state_after self.old.object None self.old.wild self.old.taken) self.old.wild))
            ⊎ (result ≡ Stepped.Detected) }
    {
        let stepped = self.machine.step(self.program, &mut self.left);
        self.taken += 1;
        stepped
    }

    /// The machine: right after the strike if no step has been taken since, else after the steps taken. The site that
    /// was struck existed.
    pub fn machine(&self) -> &Machine
        ensures now { result.now ≡ struck_now self.now }
        ensures there { is_there (state_after self.now.object None self.now.wild self.now.strike.step) self.now.strike.site ≡ true }
        ensures after { self.now.strike.step < self.now.taken → result.now ≡ state_after self.now.object (Some self.now.strike) self.now.wild self.now.taken }
        ensures alike { IsAlikeAfter self.now.object self.now.strike self.now.wild self.now.taken result.now }
    {
        &self.machine
    }

    /// The number of steps taken, including those before the strike.
    pub fn taken(&self) -> u64
        ensures { result ≡ self.now.taken }
    {
        self.taken
    }
}
