// The way back: a listing, assembled, gives the normal forms, and they list the same. This crate holds no code, only theorems.
#![tactic(auto)]
