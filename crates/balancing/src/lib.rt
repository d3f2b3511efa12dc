// The balance theorem of a posting, the one-key machine, and worked examples. There is no code here.
#![tactic(auto)]
