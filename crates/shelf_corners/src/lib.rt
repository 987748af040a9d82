// The corners of document 01, computed from the definitions of the rewriting and of the shelf test: those that it marks with (P) in one
// table, proofs/Table.antt. There are no functions; the words of the rows are in specs/.

#![tactic(auto)]
