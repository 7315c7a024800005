//! No function here does anything: its clause is a theorem.
ghost use Rattle.engines.specs.Calls.Known.{KnownEngineQuestions};

/// Up to which width each engine serves, and which question each asks of its own.
#[tactic(auto, using(crate::specs::Calls::Known::known))]
pub fn known_questions()
    ensures { KnownEngineQuestions }
{}
