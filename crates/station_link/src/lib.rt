// Theorems only: 02, §3, of the two X3.28 stations and the line between them (specs/Promise.antt, proofs/).

#![tactic(auto)]
