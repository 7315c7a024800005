//! The tree follows the round-robin rule. No function here does anything: its clause is a theorem, stated in `specs/Subtrees.antt`.
ghost use Rattle.tree.specs.Calls.Known.{KnownTreeQuestions};
ghost use Rattle.tree.specs.Subtrees.{ChosenGranted, FirstReached, TableOne};

/// Each node's value says of the stations below it whether the head is there, and whether one that counts asks.
#[tactic(auto, using(crate::specs::Subtrees::Laws::table_one))]
pub fn table_one()
    ensures { TableOne }
{}

/// The descent reaches the first asking station in the order, whenever any asks.
#[tactic(auto, using(crate::specs::Subtrees::Laws::first_reached))]
pub fn first_reached()
    ensures { FirstReached }
{}

/// So the tree grants whom the round-robin rule grants, for every power of two.
#[tactic(auto, using(crate::specs::Subtrees::Laws::chosen_granted))]
pub fn chosen_granted()
    ensures { ChosenGranted }
{}

/// In which order a cycle asks its questions, and up to which width.
#[tactic(auto, using(crate::specs::Calls::Known::known))]
pub fn known_questions()
    ensures { KnownTreeQuestions }
{}
