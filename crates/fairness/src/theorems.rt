//! The wait rule, over every list of calls, from any state, whoever asks. A list has cycles of one kind, refused ones too, and between them
//! calls that write an image or a snapshot. No function here does anything: its clause is a theorem, stated in `specs/Waiting.antt` and the
//! files beside it.
ghost use Rattle.fairness.specs.Backlog.{BacklogGrantedInTime, MessageAsks};
ghost use Rattle.fairness.specs.Cycles.{WaitingCycles};
ghost use Rattle.fairness.specs.Kinds.{by_engines, by_rule, on_bus, packed, with_messages};
ghost use Rattle.fairness.specs.Turns.{TurnsOfEngines};
ghost use Rattle.fairness.specs.Waiting.{BoundedWaiting, BusBoundedWaiting, GrantedInTime, NotTwice, OneLeast, PicksBounded, PicksNoFewer, UnservedRefused};

/// A station that asks and is not granted waits for fewer than N/m rounded up served cycles, and no smaller number would do: calls by scan, tree, thermometer arbiter and Kogge-Stone arbiter, in any mixture.
pub fn bounded_waiting()
    ensures { BoundedWaiting by_engines }
{}

/// Nobody else is granted twice while a station waits.
#[tactic(auto, using(crate::proofs::Waiting::not_twice))]
pub fn not_twice()
    ensures { NotTwice by_engines }
{}

/// A station that asks until it is granted is granted within N/m rounded up served cycles.
pub fn granted_in_time()
    ensures { GrantedInTime by_engines }
{}

/// From a state that no engine serves every cycle is refused.
#[tactic(auto, using(crate::proofs::Waiting::unserved_refused))]
pub fn unserved_refused()
    ensures { UnservedRefused by_engines }
{}

/// The same bound where cycles with messages waiting and packed cycles stand among those by the engines.
pub fn mixed_bounded_waiting()
    ensures { BoundedWaiting by_rule }
{}

/// In such a mixture, too, nobody else is granted twice while a station waits.
#[tactic(auto, using(crate::proofs::Waiting::mixed_not_twice))]
pub fn mixed_not_twice()
    ensures { NotTwice by_rule }
{}

/// In such a mixture a station that asks until it is granted is granted in the same time.
pub fn mixed_granted_in_time()
    ensures { GrantedInTime by_rule }
{}

/// From a state that no engine serves every cycle of such a mixture is refused.
#[tactic(auto, using(crate::proofs::Waiting::mixed_unserved_refused))]
pub fn mixed_unserved_refused()
    ensures { UnservedRefused by_rule }
{}

/// Whatever the pick count of each cycle of such a mixture: the pick counts of a wait add up to less than N, and nobody is granted twice.
pub fn picks_bounded()
    ensures { PicksBounded }
{}

/// With no number smaller than N would that be true.
pub fn picks_no_fewer()
    ensures { PicksNoFewer }
{}

/// The packed scan and cycles with messages waiting take the turns of the engines: for each list of cycles of such a mixture there is a list of cycles by engines alone with the same turns.
#[tactic(auto, using(crate::proofs::Turns::turns_of_engines))]
pub fn turns_of_engines()
    ensures { TurnsOfEngines }
{}

/// The packed scan's waits have the same bound, and no smaller number would do.
#[tactic(auto, using(crate::proofs::Waiting::packed_bounded_waiting))]
pub fn packed_bounded_waiting()
    ensures { BoundedWaiting packed }
{}

/// By the packed scan, too, nobody else is granted twice while a station waits.
#[tactic(auto, using(crate::proofs::Waiting::packed_not_twice))]
pub fn packed_not_twice()
    ensures { NotTwice packed }
{}

/// By the packed scan a station that asks until it is granted is granted in the same time.
#[tactic(auto, using(crate::proofs::Waiting::packed_granted_in_time))]
pub fn packed_granted_in_time()
    ensures { GrantedInTime packed }
{}

/// From a state that the packed scan does not serve every cycle by it is refused.
#[tactic(auto, using(crate::proofs::Waiting::packed_unserved_refused))]
pub fn packed_unserved_refused()
    ensures { UnservedRefused packed }
{}

/// With messages waiting, a station asks exactly where it has one.
#[tactic(auto, using(crate::proofs::BacklogCalls::message_asks))]
pub fn message_asks()
    ensures { MessageAsks }
{}

/// A station with a message waiting waits for fewer than N/m rounded up served cycles.
pub fn backlog_bounded_waiting()
    ensures { BoundedWaiting with_messages }
{}

/// Nobody else is granted twice while a message waits.
#[tactic(auto, using(crate::proofs::Waiting::backlog_not_twice))]
pub fn backlog_not_twice()
    ensures { NotTwice with_messages }
{}

/// In a list that keeps the waiting numbers, a station that has a message is granted within N/m rounded up cycles.
pub fn backlog_granted_in_time()
    ensures { BacklogGrantedInTime }
{}

/// From such a state every cycle with messages waiting, too, is refused.
#[tactic(auto, using(crate::proofs::Waiting::backlog_unserved_refused))]
pub fn backlog_unserved_refused()
    ensures { UnservedRefused with_messages }
{}

/// On the bus, one of any N acknowledged cycles through which a station asks grants it, and no smaller number would do.
#[tactic(auto, using(crate::proofs::Waiting::bus_bounded_waiting))]
pub fn bus_bounded_waiting()
    ensures { BusBoundedWaiting }
{}

/// From a state that the bus does not serve every cycle on the bus is refused.
#[tactic(auto, using(crate::proofs::Waiting::bus_unserved_refused))]
pub fn bus_unserved_refused()
    ensures { UnservedRefused on_bus }
{}

/// Of any test there is one least number at most.
#[tactic(auto, using(crate::proofs::Waiting::one_least))]
pub fn one_least()
    ensures { OneLeast }
{}

/// The argument of the wait rule, over cycles of the round-robin rule by themselves: the pick counts of a wait add up to less than N.
#[tactic(auto, using(crate::proofs::Cycles::waiting_cycles))]
pub fn waiting_cycles()
    ensures { WaitingCycles }
{}
