// What stored names mean, as definitions and laws (specs/). The code has the numbers of their sorts alone.
#![tactic(auto)]

pub mod sorts;
