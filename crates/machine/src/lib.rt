// The machine of document 01 is a definition: see specs.

#![tactic(auto)]
