// Theorems only: P1 to P12 of document 01, one list under one claim (proofs/).

#![tactic(auto)]
