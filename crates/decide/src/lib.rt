// The decision whether k columns fix the answer: definitions in specs/, their proof in proofs/.
#![tactic(auto)]
