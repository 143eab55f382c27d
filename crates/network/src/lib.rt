// Theorems over the engines. It has no code.
#![tactic(auto)]
