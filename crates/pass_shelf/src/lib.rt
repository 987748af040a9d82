// nothing but laws

#![tactic(auto)]
