//! Runs without a fault.
ghost use Rattle.std.specs.Prelude.{◌≡◌, ◌≢◌, ◌+◌, ◌<◌, ◌^◌, true, false, List, None, IfOk};
ghost use Rattle.ft_isa.specs.declared.plan.Wild.{Wild as Answer};
ghost use Rattle.ft_semantics.specs.Run.{state_after};
ghost use Rattle.ft_semantics.specs.Step.{step};
ghost use Rattle.ft_semantics.specs.Strike.{is_there};
ghost use Rattle.ft_machine.specs.Answers.{told};

use crate::hit::Hit;
use crate::struck::Struck;
use ft_checker::Checked;
use ft_isa::{NoMemory, Site, Strike, Wild};
use ft_machine::{Machine, Stepped, WildLeft};
use ft_types::Program;
use std::alloc::Global;
use std::marker::Model;

/// The run of an accepted program without a fault. It takes no answers to wild loads, since none of its loads is wild.
/// Contracts see it as the program's object and the number of steps taken.
#[derive(Drop)]
pub struct Clean<'a, P: Program> {
    pub(crate) program: &'a P,
    pub(crate) machine: Machine,
    pub(crate) taken: u64,
}

impl<'a, P: Program> Model for Clean<'a, P> {
    ghost use Rattle.ft_runs.specs.Runs.{CleanRun, IsClean};

    ghost Value = { CleanRun };

    ghost view = { λ c. record { object = P.object c.program.now; taken = c.taken } };

    ghost invariant = { λ c. IsClean (record { object = P.object c.program.now; taken = c.taken }) c.machine };
}

impl<'a, P: Program> Clean<'a, P> {
    /// The run of a checked program before its first step.
    pub fn start(alloc: Global, checked: &Checked<'a, P>) -> Result<Clean<'a, P>, NoMemory>
        ensures { IfOk result (λ c. c ≡ record { object = P.object checked.now; taken = 0 }) }
    {
        let program = checked.program();
        let machine = Machine::new(alloc, program)?;
        Ok(Clean {
            program,
            machine,
            taken: 0,
        })
    }

    /// Takes one step, which never detects a fault. If the run is done, only the number of steps taken changes.
    pub fn step(&mut self) -> Stepped
        requires { self.old.taken < 2 ^ 63 }
        ensures taken { self.new ≡ record self.old { taken = self.old.taken + 1 } }
        ensures answer { (w : List Answer) → result ≡ told (step self.old.object (state_after self.old.object None w self.old.taken) w) }
        ensures undetected { result ≢ Stepped.Detected }
    {
        let mut wild = WildLeft::new(&[]);
        let stepped = self.machine.step(self.program, &mut wild);
        self.taken += 1;
        stepped
    }

    /// Strikes the run before its next step: the word at the site becomes `value`. Returns `Idle`, with the run
    /// unchanged, exactly when the run has stopped or the site does not exist. The struck run takes these answers to
    /// wild loads.
    pub fn strike<'w>(self, site: Site, value: u64, wild: &'w [Wild]) -> Hit<'a, 'w, P>
        ensures struck { (s : _) → result ≡ Hit.Struck s →
            (s ≡ record { object = self.entry.object; strike = record { step = self.entry.taken; site = site; value = value }; wild = wild.now; taken = self.entry.taken })
            × (is_there (state_after self.entry.object None wild.now self.entry.taken) site ≡ true) }
        ensures idle { (c : _) → result ≡ Hit.Idle c →
            (c ≡ self.entry) × (is_there (state_after self.entry.object None wild.now self.entry.taken) site ≡ false) }
    {
        let Clean {
            program,
            mut machine,
            taken,
        } = self;
        if machine.strike(site, value) {
            let strike = Strike {
                step: taken,
                site,
                value,
            };
            Hit::Struck(Struck {
                program,
                machine,
                taken,
                strike,
                wild,
                left: WildLeft::new(wild),
            })
        } else {
            Hit::Idle(Clean {
                program,
                machine,
                taken,
            })
        }
    }

    /// The machine after the steps taken.
    pub fn machine(&self) -> &Machine
        ensures { (w : List Answer) → result.now ≡ state_after self.now.object None w self.now.taken }
    {
        &self.machine
    }

    /// How many steps were taken.
    pub fn taken(&self) -> u64
        ensures { result ≡ self.now.taken }
    {
        self.taken
    }
}
