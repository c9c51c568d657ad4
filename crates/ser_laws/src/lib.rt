// Laws of the writer: specs/ states them, proofs/ proves them.
#![tactic(auto)]
