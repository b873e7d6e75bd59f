// Theorems only: what is written reads back, and fits its block (proofs/).

#![tactic(auto)]
