// Which line of a text failed on a recording: see specs/.

#![tactic(auto)]
