// nothing but definitions and laws

#![tactic(auto)]
