// The whole numbers as a commutative ordered ring: definitions in specs/, laws and solvers in proofs/. No code.
#![tactic(auto)]
