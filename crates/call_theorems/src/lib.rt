// Theorems only (proofs/), of what C calls: a driver reads a stream in parts as a whole, a verdict that is handed on as number and
// type is the verdict, and two drivers that run a link by the C functions keep demand 3.

#![tactic(auto)]
