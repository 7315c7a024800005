//! No function here does anything: its clause is a theorem.
ghost use Rattle.token_bus.specs.Calls.Known.{KnownBusQuestions};

/// In which order a cycle asks its questions, and up to which width.
#[tactic(auto, using(crate::specs::Calls::Known::known))]
pub fn known_questions()
    ensures { KnownBusQuestions }
{}
