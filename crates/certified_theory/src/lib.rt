// Theorems over the definitions of lists with coefficients: lemma files in proofs/, no code.
#![tactic(auto)]
