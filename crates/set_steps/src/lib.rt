// Sets of stored expressions by steps of the machine: their measures, the numbers between bounds, ranges, braces; and the width of a bus.
// The functions ask for a state of the machine; they are called by its loop alone.
#![tactic(auto)]

pub mod bounds;
pub mod braces;
pub mod making;
pub mod measures;
pub mod ranges;
pub mod widths;
