// What refusals 5, 6, 8 and 10 are, in words of the source, and that the definitions say so: see specs/.

#![tactic(auto)]
