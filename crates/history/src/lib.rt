// No code. specs/ has what a history of replicas is and the claim of demand 3; start at specs/Claim.antt.
#![tactic(auto)]
