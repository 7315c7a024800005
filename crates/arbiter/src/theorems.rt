//! What the questions say. No function here does anything: its clause is a theorem.
ghost use Rattle.arbiter.specs.Cycle.Known.{KnownCycleQuestions};
ghost use Rattle.arbiter.specs.Questions.Known.{KnownQuestions};
ghost use Rattle.arbiter.specs.Refusals.{AnyPlace, Numbered, Placed};
ghost use Rattle.arbiter.specs.Refusals.Known.{KnownRefusals};
ghost use Rattle.arbiter.specs.Theorems.{HighestPasses, HighestSilent};

/// Question 8 passes exactly if the highest byte is at most 1.
#[tactic(auto, using(crate::proofs::Highest::highest_passes))]
pub fn highest_passes()
    ensures { HighestPasses }
{}

/// Where every byte is 0 or 1, nobody asks exactly if the highest byte is 0.
#[tactic(auto, using(crate::proofs::Highest::highest_silent))]
pub fn highest_silent()
    ensures { HighestSilent }
{}

/// Small cases of the questions.
#[tactic(auto, using(crate::specs::Questions::Known::known))]
pub fn known_questions()
    ensures { KnownQuestions }
{}

/// In which order a cycle by the round-robin rule asks its questions, and up to which width.
#[tactic(auto, using(crate::specs::Cycle::Known::known))]
pub fn known_cycle_questions()
    ensures { KnownCycleQuestions }
{}

/// Every refusal's number is 1 to 23.
#[tactic(auto, using(crate::specs::Refusals::Laws::numbered))]
pub fn numbered()
    ensures { Numbered }
{}

/// A refusal's place is 0 except for the questions that name one: 8, 10, 14, 16, 17, 22 and 23.
#[tactic(auto, using(crate::specs::Refusals::Laws::placed))]
pub fn placed()
    ensures { Placed }
{}

/// Each of these can name any place: there is a refusal with its number and that place.
#[tactic(auto, using(crate::specs::Refusals::Laws::any_place))]
pub fn any_place()
    ensures { AnyPlace }
{}

/// Small cases of the refusals: their numbers, places and words.
#[tactic(auto, using(crate::specs::Refusals::Known::known))]
pub fn known_refusals()
    ensures { KnownRefusals }
{}
