// The starred cases of document 01 in one table: see specs/.

#![tactic(auto)]
