// Symmetric bilinear forms on levels, and what they say of a two-level scheme:
// its energy, and how far rounding takes it. Laws only, in proofs/.
#![tactic(auto)]
