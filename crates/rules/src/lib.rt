#![tactic(auto)]

pub mod theorems;

// Where the order of the stations starts: 01's head, a station number or none. On the bus it is the token.
pub type Head = Option<usize>;
