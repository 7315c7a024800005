//! What holds of the rules by themselves. No function here does anything: its clause is a theorem, stated in `specs/Theorems.antt`.
ghost use Rattle.std.specs.Prelude.{true, ◌≡◌, length};
ghost use Rattle.std.specs.List.{list_all};
ghost use Rattle.rules.specs.RoundRobin.Known.{right, starred};
ghost use Rattle.rules.specs.KoggeStone.Known.{KnownNetwork};
ghost use Rattle.rules.specs.Packing.Known.{KnownPacking};
ghost use Rattle.rules.specs.Pending.Known.{KnownMore};
ghost use Rattle.rules.specs.Thermometer.Known.{KnownRunningCodes};
ghost use Rattle.rules.specs.Theorems as Theorems;

/// The rules give each of the known turns, and there are twelve.
#[tactic(auto, using(crate::specs::RoundRobin::Known::known))]
pub fn known_turns()
    ensures given { list_all right starred ≡ true }
    ensures twelve { length starred ≡ 12 }
{}

/// What the tree leaves in its node buffer: byte 0 is 0, node N + i is station i's, and every other node joins its two children.
pub fn nodes_hold_tree()
    ensures { Theorems.NodesHoldTree }
{}

/// Which of the 16 pairs of child values choose right.
#[tactic(auto, using(crate::proofs::Tree::Laws::right_pairs))]
pub fn right_pairs()
    ensures { Theorems.RightPairs }
{}

/// The tree grants whom the round-robin rule grants, with 2 and with 4 stations, by computing every case.
#[tactic(auto, using(crate::specs::RoundRobin::Trees::small_trees))]
pub fn small_trees()
    ensures { Theorems.SmallTrees }
{}

/// The saturated adder may be regrouped, for every number of picks.
#[tactic(auto, using(crate::proofs::Thermometer::Laws::add_regroup))]
pub fn add_regroup()
    ensures { Theorems.AddRegroup }
{}

/// The saturated counts grant those whom the round-robin rule grants.
#[tactic(auto, using(crate::proofs::Thermometer::Laws::grants_round_robin))]
pub fn grants_round_robin()
    ensures { Theorems.GrantsRoundRobin }
{}

/// The running code before each station is its saturated count, as a code.
#[tactic(auto, using(crate::proofs::Thermometer::Running::code_before))]
pub fn code_before()
    ensures { Theorems.CodeBefore }
{}

/// The running code past the last station has as many ones as the cycle has grants.
#[tactic(auto, using(crate::proofs::Thermometer::Running::ones_past))]
pub fn ones_past()
    ensures { Theorems.OnesPast }
{}

/// The running codes are the saturated counts of all stations in their order, and then the count of grants.
#[tactic(auto, using(crate::proofs::Thermometer::Running::codes_serial))]
pub fn codes_serial()
    ensures { Theorems.CodesSerial }
{}

/// The Kogge-Stone network's counts are the running codes.
#[tactic(auto, using(crate::proofs::KoggeStone::Laws::counts_running))]
pub fn counts_running()
    ensures { Theorems.CountsRunning }
{}

/// The Kogge-Stone network's count before each station is that station's saturated count.
#[tactic(auto, using(crate::proofs::KoggeStone::Laws::count_serial))]
pub fn count_serial()
    ensures { Theorems.CountSerial }
{}

/// One of the network's adders cuts something off exactly if more stations ask than there are picks.
#[tactic(auto, using(crate::proofs::KoggeStone::Laws::network_more))]
pub fn network_more()
    ensures { Theorems.NetworkMore }
{}

/// More are pending exactly if more ask than are granted.
#[tactic(auto, using(crate::proofs::Pending::Laws::more_granted))]
pub fn more_granted()
    ensures { Theorems.MoreGranted }
{}

/// More are pending exactly if more ask than there are picks.
#[tactic(auto, using(crate::proofs::Pending::Laws::more_picks))]
pub fn more_picks()
    ensures { Theorems.MorePicks }
{}

/// More are pending exactly if the bytes of requests and grants are not the same.
#[tactic(auto, using(crate::proofs::Pending::Laws::more_by_bytes))]
pub fn more_bytes()
    ensures { Theorems.MoreBytes }
{}

/// Unpacking undoes packing.
#[tactic(auto, using(crate::proofs::Packing::Laws::unpack_pack))]
pub fn unpack_pack()
    ensures { Theorems.UnpackPack }
{}

/// Packing undoes unpacking.
#[tactic(auto, using(crate::proofs::Packing::Laws::pack_unpack))]
pub fn pack_unpack()
    ensures { Theorems.PackUnpack }
{}

/// What an entry of the packed scan's table says of a byte's lines.
#[tactic(auto, using(crate::proofs::Packing::Laws::entry))]
pub fn entry_line()
    ensures { Theorems.EntryLine }
{}

/// Published examples of running codes.
#[tactic(auto, using(crate::proofs::Thermometer::Known::known))]
pub fn known_running_codes()
    ensures { KnownRunningCodes }
{}

/// A small network: its distances, what each level makes of the codes, and what it cuts off.
#[tactic(auto, using(crate::proofs::KoggeStone::Known::known))]
pub fn known_network()
    ensures { KnownNetwork }
{}

/// Small cases of packed wires and of the table.
#[tactic(auto, using(crate::specs::Packing::Known::known))]
pub fn known_packing()
    ensures { KnownPacking }
{}

/// Small cases of more pending.
#[tactic(auto, using(crate::specs::Pending::Known::known))]
pub fn known_more()
    ensures { KnownMore }
{}
