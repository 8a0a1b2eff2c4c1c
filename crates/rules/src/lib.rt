// No code. specs/ has document 01 as definitions; proofs/ has its cases a to j and the laws that all code is proved by.
#![tactic(auto)]
