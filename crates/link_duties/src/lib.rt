// Theorems only: each duty of the hosts is needed for demand 3 (proofs/).

#![tactic(auto)]
