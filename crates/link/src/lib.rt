// Theorems only: demand 3 (specs/Promise.antt), of the two ends and the line between them (proofs/).

#![tactic(auto)]
