// A formula's basic text: measured, and written (document 02, F-1).
#![tactic(auto)]

pub mod formula;
pub mod pieces;
pub mod text;
