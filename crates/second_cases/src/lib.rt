// Cases written by the second converter: see specs/.

#![tactic(auto)]
