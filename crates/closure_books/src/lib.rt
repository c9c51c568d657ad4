// Two books, one of which holds only definitions of the other: specs/ says it, proofs/ has the laws.
#![tactic(auto)]
