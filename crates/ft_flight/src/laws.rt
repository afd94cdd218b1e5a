//! Laws of the words that cells may hold. Each function does nothing: its clause is the law.
ghost use Rattle.std.specs.Prelude.{ℕ, List, All, Option};
ghost use Rattle.ft_isa.specs.Words.{IsWord};
ghost use Rattle.ft_isa.specs.declared.plan.Strike.{Strike};
ghost use Rattle.ft_types.specs.declared.object.Object.{Object};
ghost use Rattle.ft_flight.specs.declared.state.FlightState.{FlightState};
ghost use Rattle.ft_flight.specs.Flights.{HasIntCells, IsFlight, MayHold};

/// Cells of type `int` may hold any words of 64 bits.
pub fn int_cells_may_hold_any_words()
    ensures { (o : Object) (words : List ℕ) → HasIntCells o → All IsWord words → MayHold o words }
{}

/// In an attempt at a cycle, under at most one strike, the cells always hold words with which another cycle may begin.
pub fn cells_keep_their_types()
    ensures { (o : Object) (strike : Option Strike) (state : FlightState) (cells saved : List ℕ) →
        IsFlight o strike state cells saved → All IsWord cells → MayHold o cells }
{}
