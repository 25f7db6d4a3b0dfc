// The paper's rules: definitions in specs/, their laws and the proof of demand 3 in proofs/.
// The types are in crate types, the table T of a pluck and the loading of lent ones in crate pluck_table.
#![tactic(auto)]
