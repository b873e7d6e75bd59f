// Theorems only: each promise allows one outcome (proofs/).

#![tactic(auto)]
