// Theorems only: what is read is what was written, in one part or in many (proofs/).

#![tactic(auto)]
