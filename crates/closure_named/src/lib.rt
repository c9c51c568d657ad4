// Demand 3 with the root by its name, from a book that may have nothing in it: specs/ states it, proofs/ proves it.
#![tactic(auto)]
