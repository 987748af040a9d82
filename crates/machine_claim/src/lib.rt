// The claim that whoever runs a rewritten routine of reason 0 cannot tell; definitions and theorem are in specs/ and proofs/.

#![tactic(auto)]
