//! The packed scan's turns are the plain scan's. No function here does anything: its clause is a theorem, stated in
//! `specs/AsScan.antt` and `specs/Lines.antt`.
ghost use Rattle.packed_scan.specs.AsScan.{ServedPacked, ServedUnpacked};
ghost use Rattle.packed_scan.specs.Calls.Known.{KnownPackedQuestions};
ghost use Rattle.packed_scan.specs.Lines.{RoundGranted};

/// What the packed scan serves, the plain scan serves on the unpacked wires, with the same answer and the same grants.
#[tactic(auto, using(crate::proofs::AsScan::served_unpacked))]
pub fn served_unpacked()
    ensures { ServedUnpacked }
{}

/// What the plain scan serves with one pick, the packed scan serves on the packed wires, with the same answer and the same grants.
#[tactic(auto, using(crate::proofs::AsScan::served_packed))]
pub fn served_packed()
    ensures { ServedPacked }
{}

/// The first line that is set, once round from the head, is whom the rule grants.
#[tactic(auto, using(crate::specs::Lines::Laws::round_granted))]
pub fn round_granted()
    ensures { RoundGranted }
{}

/// In which order a cycle asks its questions, and up to which width.
#[tactic(auto, using(crate::specs::Calls::Known::known))]
pub fn known_questions()
    ensures { KnownPackedQuestions }
{}
