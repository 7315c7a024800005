//! What holds of every call and of lists of calls, as theorems.
#![tactic(auto)]

pub mod theorems;
