//! The wait rule as theorems.
#![tactic(auto)]

pub mod theorems;
