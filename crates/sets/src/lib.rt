// Numbers: numerals, arithmetic and comparisons; and sets of numbers at equal steps. Each is equal to its definition in the language's specs.
// A set is the first n entries of a lent array, ascending, at most 256 of them; its array has room for one more.
#![tactic(auto)]

pub mod numbers;
pub mod ranges;
