//! What a tracer sees of a function's code: a definition for proofs that read something off their function's own code, such as which
//! functions it calls, and in which order.
#![tactic(auto)]

pub mod theorems;
