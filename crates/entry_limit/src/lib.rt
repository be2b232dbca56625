// The lent calls and the services with the entry limit as a parameter, as definitions and theorems: no code.
#![tactic(auto)]
