// What the services answer to order files, as definitions and theorems: no code.
#![tactic(auto)]
