// Theorems over whole calls; there is no code here.
#![tactic(auto)]
