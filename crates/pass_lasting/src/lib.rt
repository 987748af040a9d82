// The laws that the shelf test's reasons 1 and 2 are not new in what comes out; statements and proofs are in specs/ and proofs/.

#![tactic(auto)]
