// Worked examples of a tape's form: proofs/Tapes.antt has them. It has no code of its own.
#![tactic(auto)]
