// An accepted routine: what the code has of it (specs/Accepted), and its laws.

#![tactic(auto)]
