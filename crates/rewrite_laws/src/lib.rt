// The rewritten routine has a byte form of its own: the definitions and laws are in specs/ and proofs/.

#![tactic(auto)]
