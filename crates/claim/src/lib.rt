// What the reader and the converter promise, and the claim of demand 3: the statements stand in specs/.

#![tactic(auto)]
