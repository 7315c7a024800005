//! Snapshot and state convert each way without loss. No function here does anything: its clause is a theorem, stated in
//! `specs/RoundTrips.antt`.
ghost use Rattle.snapshot.specs.Calls.Known.{KnownSnapshots};
ghost use Rattle.snapshot.specs.RoundTrips.{ShortLengthened, ShortReadAlike, SnapshotReadBack, SnapshotWrittenBack};

/// The snapshot that is written of a state reads back as that state.
#[tactic(auto, using(crate::proofs::RoundTrips::snapshot_read_back))]
pub fn snapshot_read_back()
    ensures { SnapshotReadBack }
{}

/// The six bytes that were read are written back.
#[tactic(auto, using(crate::proofs::RoundTrips::snapshot_written_back))]
pub fn snapshot_written_back()
    ensures { SnapshotWrittenBack }
{}

/// Four bytes that are served give what the snapshot of their state gives.
pub fn short_read_alike()
    ensures { ShortReadAlike }
{}

/// Four bytes are answered as six with a high byte of 0 for each number.
pub fn short_lengthened()
    ensures { ShortLengthened }
{}

/// Some states in their bytes, and what is refused.
#[tactic(auto, using(crate::specs::Calls::Known::known))]
pub fn known_snapshots()
    ensures { KnownSnapshots }
{}
