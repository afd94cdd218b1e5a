//! Breakpoints.
ghost use Rattle.std.specs.Prelude.{◌≡◌, ◌<◌, ◌++◌, ◌∷◌, [], not, nat_lt, length, IfOk};
ghost use Rattle.ft_debug.specs.Sessions.{is_set};

use ft_isa::NoMemory;
use std::alloc::Global;
use std::marker::Model;

/// The maximum number of places.
const ROOM: usize = 64;

/// At most 64 different code addresses, in the order in which they were set.
#[derive(Drop)]
pub struct BreakPlaces {
    addresses: Vec<u64>,
}

impl Model for BreakPlaces {
    ghost use Rattle.std.specs.Prelude.{ℕ, List};
    ghost use Rattle.ft_debug.specs.Reserved.{IsReserved};

    ghost Value = { List ℕ };

    ghost view = { λ b. b.addresses.items };

    ghost invariant = { IsReserved };
}

impl BreakPlaces {
    /// No places, with room for 64.
    pub fn new(alloc: Global) -> Result<BreakPlaces, NoMemory>
        ensures { IfOk result (λ b. b ≡ []) }
    {
        Ok(BreakPlaces {
            addresses: Vec::with_capacity(alloc, ROOM)?,
        })
    }

    /// Whether there are 64 places.
    pub fn is_full(&self) -> bool
        ensures { result ≡ not (nat_lt (length self.now) 64) }
    {
        self.addresses.len() >= ROOM
    }

    /// Whether an address is one of the places.
    pub fn contains(&self, address: u64) -> bool
        ensures { result ≡ is_set self.now address }
    {
        self.addresses.iter().any(|place| *place == address)
    }

    /// Adds a place.
    pub fn add(&mut self, address: u64)
        requires { length self.old < 64 }
        ensures { self.new ≡ self.old ++ address ∷ [] }
    {
        self.addresses.push(address).unwrap();
    }
}
