//! No function here does anything: its clause is a theorem.
ghost use Rattle.tracer.specs.Trace.Known.{KnownTraces};

/// What the tracer sees of small pieces of code.
#[tactic(auto, using(crate::specs::Trace::Known::known))]
pub fn known_traces()
    ensures { KnownTraces }
{}
