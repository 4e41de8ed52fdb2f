// A name in a formula's place by steps of the machine: a signal, or a definition, whose nodes are written once and copied from there at its other uses.
// The functions ask for a state of the machine; they are called by its loop alone.
#![tactic(auto)]

mod marks;
pub mod named;
