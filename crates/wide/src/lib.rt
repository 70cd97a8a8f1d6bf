// A sum read at once into its target, where the columns that fill it, or one more, fix the answer.
#![tactic(auto)]

mod filling; // filling.rt: which way the target is filled
mod below; // below.rt: what lies below the columns read
mod exactly; // exactly.rt: the columns that fill the target fix the answer
mod guarded; // guarded.rt: one column more fixes it
mod hollow; // hollow.rt: the second operand lies below all that is read of the first
mod rounding_off; // rounding_off.rt: what fills the target, rounded
mod order; // order.rt: two regular operands in order
mod told; // told.rt: what is told of the sum

pub use exactly::glance_full;
pub use filling::{Filled, fill, needs_guard};
pub use guarded::glance_guarded;
pub use hollow::beside;
pub use order::Operands;
pub use rounding_off::round;
pub use told::Attempt;
