// The digits kept of a run of limbs: the target truncated to them in one walk, and the last unit added in a second.
// The spare bits are a plain number below 64, which callers count from a precision: a type for it would be made and opened in each call.
#![tactic(auto)]

mod truncation; // truncation.rt: walk one
mod increment; // increment.rt: walk two

pub use increment::{is_odd, raise, round_up};
pub use truncation::{reach, truncate};
