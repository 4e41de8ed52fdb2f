// Formulas under operators of one operand by steps of the machine: `!` and the operators of time. A function for each way in which an entry is worked out or a
// frame takes what has come. The functions ask for a state of the machine; they are called by its loop alone.
#![tactic(auto)]

pub mod repetitions;
pub mod unaries;
pub mod windows;
