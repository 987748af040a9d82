// The simulation is a theorem: see specs for its statement and proofs for its proof.

#![tactic(auto)]
