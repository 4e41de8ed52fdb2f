// Values of stored expressions by steps of the machine: a function for every way in which an entry is worked out or a frame takes what has come.
// The functions ask for a state of the machine; they are called by its loop alone.
#![tactic(auto)]

pub mod combinations;
pub mod named;
pub mod numbers;
pub mod parens;
