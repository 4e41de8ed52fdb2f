// Formulas whose operands are values, by steps of the machine: a bus's bit, comparisons, membership.
// The functions ask for a state of the machine; they are called by its loop alone.
#![tactic(auto)]

pub mod bits;
pub mod comparisons;
pub mod membership;
pub mod signals;
