// A sum that its first column fixes, rounded to digits that one limb holds with two to spare: by value, without the target.
//
//     column 0
//     first    [ u                  ] ..
//     second        [ v             ] ..      gap digits below
//     sum    c [ limb               ]         p digits, and below them the rest
//
// What is marked `inline(always)` is called from two places, and stands in both: a call would take its operands through memory.
#![tactic(auto)]

mod ordered; // ordered.rt: two operands in order, by their top limbs
mod column; // column.rt: the first column as a run to be rounded
mod seeing; // seeing.rt: what is seen of the run, and exact differences
mod like; // like.rt: the run of two operands of one sign rounded, in any order
mod unlike; // unlike.rt: the same of unlike signs
mod looking; // looking.rt: the same of any signs
mod alone; // alone.rt: the same of an operand alone

pub use alone::look_alone;
pub use like::look_like;
pub use looking::{Sight, look};
pub use seeing::Seen;
pub use unlike::look_unlike;
