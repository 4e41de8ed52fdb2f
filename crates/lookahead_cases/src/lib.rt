// The reach of small tables, worked out by computing: see specs/. A crate of its own, so that an edit that bends definition and code alike meets the proofs alone.

#![tactic(auto)]
