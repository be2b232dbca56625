// Theorems over the definition of a session: lemma files in proofs/, no code.
#![tactic(auto)]
