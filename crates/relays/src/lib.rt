// No code. specs/ has the join of books of any size, its laws, and what they say of files and takes (6/12); proofs/ has the proof of each.
#![tactic(auto)]
