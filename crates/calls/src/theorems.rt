//! What holds of every call, whatever it is given, and what lists with messages waiting keep. No function here does anything: its clause
//! is a theorem, stated in `specs/EveryCall.antt` and `specs/Messages.antt`.
ghost use Rattle.calls.specs.EveryCall.{AdderAnswers, GrantsCounted, HeadAfter, MorePending, PlaceZero, RefusedAsGiven, RefusedSkipped};
ghost use Rattle.calls.specs.Messages.{AllKept, EachKept};

/// No served cycle ends without a head.
#[tactic(auto, using(crate::proofs::EveryCall::head_after))]
pub fn head_after()
    ensures { HeadAfter }
{}

/// A served call counts the 1s in its grant buffer.
#[tactic(auto, using(crate::proofs::EveryCall::grants_counted))]
pub fn grants_counted()
    ensures { GrantsCounted }
{}

/// An answer says that more are pending exactly if some station asks and is not granted.
#[tactic(auto, using(crate::proofs::EveryCall::more_pending))]
pub fn more_pending()
    ensures { MorePending }
{}

/// A refused call counts nothing, returns the state as given, and leaves every buffer as it was.
pub fn refused_as_given()
    ensures { RefusedAsGiven }
{}

/// In a list a refused cycle changes nothing for the calls that come after it.
pub fn refused_skipped()
    ensures { RefusedSkipped }
{}

/// The place of an answer is 0 except for 8, 10, 14 and 16.
#[tactic(auto, using(crate::proofs::Places::place_zero))]
pub fn place_zero()
    ensures { PlaceZero }
{}

/// The adder's place is 0; a refused sum has code 0 and cuts nothing off.
#[tactic(auto, using(crate::proofs::EveryCall::adder_answers))]
pub fn adder_answers()
    ensures { AdderAnswers }
{}

/// In any list whose cycles with messages waiting each find the numbers that the one before left: at each station, what arrived and what waited at the start are together what was granted and what waits now.
#[tactic(auto, using(crate::proofs::Conservation::each_kept))]
pub fn each_kept()
    ensures { EachKept }
{}

/// The same for all stations together.
#[tactic(auto, using(crate::proofs::Conservation::all_kept))]
pub fn all_kept()
    ensures { AllKept }
{}
