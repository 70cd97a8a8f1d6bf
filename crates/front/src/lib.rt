// What is read of a sum or difference, by value: the first column with its carry, and of the columns below it only whether they are all
// zeros, all ones or neither.
//
//     column        0       1 ..
//     carry | limb        | tail
//
#![tactic(auto)]

mod showing; // showing.rt: what is read, and one column more
mod passing; // passing.rt: columns that leave it as it is, passed over

pub use passing::pass_over;
pub use showing::{Front, begin, digits_of, is_mixed, rest_kept, step};
