// Table 1 of document 001 in the code: the operators by the numbers of their tokens, with levels, associativity, the kinds of their entries and their codes.
#![tactic(auto)]

pub mod codes;
pub mod fields;
pub mod infixes;
pub mod prefixes;
pub mod signs;
pub mod tokens;
