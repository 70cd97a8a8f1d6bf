// What the columns read say of the decision and of the answer, on the numbers that the walk holds.
#![tactic(auto)]
