// The format TLSF v1.1 in definitions: see specs/. The code has its limits and the numbers of models alone.
#![tactic(auto)]

pub mod limits;
pub mod models;
