// Columns and depth: definitions in specs/, their theory in proofs/.
#![tactic(auto)]
