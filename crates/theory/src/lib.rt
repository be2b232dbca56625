// The mathematics of the definitions: lemma files in proofs/, no code.
#![tactic(auto)]
