//! Where each register was last seen.
ghost use Rattle.std.specs.Prelude.{◌≡◌, length};
ghost use Rattle.ft_sched.specs.Registers.{number_of};
ghost use Rattle.ft_sched.specs.LastPlaces.{place_of, marked, unmet};

use ft_isa::Reg;
use std::marker::Model;

/// For each of the 64 registers, the last place at which it was seen, counted from 1, or 0 if there is none.
#[derive(Drop)]
pub struct LastPlaces {
    places: [usize; 64],
}

impl Model for LastPlaces {
    ghost use Rattle.std.specs.Prelude.{ℕ, List};

    ghost Value = { List ℕ };

    ghost view = { λ p. p.places };
}

impl LastPlaces {
    /// No register has been seen.
    pub fn new() -> LastPlaces
        ensures { result ≡ unmet }
    {
        LastPlaces { places: [0; 64] }
    }

    /// The last place of a register; 0 if none is given.
    pub fn at(&self, register: Option<Reg>) -> usize
        ensures { result ≡ place_of self.now (number_of register) }
    {
        match register {
            Some(r) => self.places[r.number() as usize],
            None => 0,
        }
    }

    /// Records that a register, if one is given, was seen at a place.
    pub fn mark(&mut self, register: Option<Reg>, place: usize)
        ensures { self.new ≡ marked self.old (number_of register) place }
    {
        if let Some(r) = register {
            self.places[r.number() as usize] = place;
        }
    }
}
