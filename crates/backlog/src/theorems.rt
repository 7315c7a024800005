//! What a cycle with messages waiting keeps. No function here does anything: its clause is a theorem.
ghost use Rattle.backlog.specs.Calls.Known.{KnownBacklog};
ghost use Rattle.backlog.specs.Kept.{KeptAtEach, KeptInAll};

/// At each station, what waited and what arrived are together what a served cycle grants and leaves waiting.
#[tactic(auto, using(crate::proofs::Conservation::kept_at_each))]
pub fn kept_at_each()
    ensures { KeptAtEach }
{}

/// The same for all stations together.
#[tactic(auto, using(crate::proofs::Conservation::kept_in_all))]
pub fn kept_in_all()
    ensures { KeptInAll }
{}

/// Small cases of the numbers, the requests and the order of the questions.
#[tactic(auto, using(crate::specs::Calls::Known::known))]
pub fn known_backlog()
    ensures { KnownBacklog }
{}
