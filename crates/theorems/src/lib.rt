// Theorems over the definitions of `rules`. They stand in specs/; there is no code.
#![tactic(auto)]
