// One run of limbs added into another, or taken off it.
#![tactic(auto)]

mod walk; // walk.rt: one run stepped through with another
mod sum; // sum.rt: one run added into another
mod difference; // difference.rt: one run taken off another

pub use difference::{rsub_from, rsub_into, sub_at, sub_from, sub_into};
pub use sum::{add_at, add_from, add_into};
pub use walk::step_from;
