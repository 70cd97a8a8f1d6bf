// Sums and differences of two numbers, rounded to a target precision, with the columns that fixed the answer.
#![tactic(auto)]

mod entry; // entry.rt: add, subtract, re-round

pub use entry::{add, reround, subtract};
