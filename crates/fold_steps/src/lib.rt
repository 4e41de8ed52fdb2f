// Big operators of numbers and sets by steps of the machine: the set first, then the operand at each of its elements, folded to the left.
// The functions ask for a state of the machine; they are called by its loop alone.
#![tactic(auto)]

pub mod numbers;
pub mod over;
pub mod set_folds;
pub mod turning;
