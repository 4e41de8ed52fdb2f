// Big operators of formulas by steps of the machine: the set first, then the operand at each of its elements, folded to the left as it is written.
// And entries whose kind alone decides: what is only marked as a formula, what is none.
// The functions ask for a state of the machine; they are called by its loop alone.
#![tactic(auto)]

pub mod each;
pub mod misfits;
