// The walk over the columns of two operands: the sum or difference of what is read, as far as rounding needs it.
#![tactic(auto)]

mod change; // change.rt: a number changed by one, from a limb up
mod tail; // tail.rt: the columns below the guard
mod state; // state.rt: what is read of the sum, and one column more

pub use change::{Change, Passed, change_from};
pub use state::{Tail, Window, append_difference, append_sum, start};
pub use tail::pass_tail;
