// No code: document 01's readings, and its examples of what is turned down, as one table with one
// theorem about the definitions of the crates below (proofs/Readings.antt); verdicts of bars that
// lean (proofs/Leaning.antt).
#![tactic(auto)]
