// Sums of regular numbers, whatever column fixes them.
#![tactic(auto)]

mod regular; // regular.rt: sums of regular numbers

pub use regular::{both, single};
