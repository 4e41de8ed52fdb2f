// Cases that hold the definitions of the format TLSF v1.1 against the papers: see specs/.

#![tactic(auto)]
