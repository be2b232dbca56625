// Theorems over the definition of the best plan within a budget: lemma files in proofs/, no code.
#![tactic(auto)]
