//! The walk carries the running codes of its cycle. No function here does anything: its clause is a theorem, stated in `specs/Runs.antt`.
ghost use Rattle.thermometer.specs.Adder.Known.{KnownSums};
ghost use Rattle.thermometer.specs.Runs.{CarriedHigh, CarriedLow};

/// Before each station from the head on, the code that the walk carries is the cycle's running code there.
#[tactic(auto, using(crate::proofs::Runs::Laws::carried_from_head))]
pub fn carried_high()
    ensures { CarriedHigh }
{}

/// So it is before each station from 0 up to the head.
#[tactic(auto, using(crate::proofs::Runs::Laws::carried_from_zero))]
pub fn carried_low()
    ensures { CarriedLow }
{}

/// Small sums, and what the adder refuses.
#[tactic(auto, using(crate::specs::Adder::Known::known))]
pub fn known_sums()
    ensures { KnownSums }
{}
