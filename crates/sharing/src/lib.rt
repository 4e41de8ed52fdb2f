// A formula written with each distinct subformula once, in definitions, and their laws: see specs/.

#![tactic(auto)]
