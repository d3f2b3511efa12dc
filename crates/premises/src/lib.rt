// Why the premises of a theorem of `effects` are there; there is no code here.
#![tactic(auto)]
