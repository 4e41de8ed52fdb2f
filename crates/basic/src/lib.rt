// The basic format that the writer writes: see specs/. The writer answers how many bytes the text has, or a refusal with its number and place.
#![tactic(auto)]
