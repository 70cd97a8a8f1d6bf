// What the window of a walk tells the rounding: how many digits it has, what lies below the last digit kept, whether the first are all 1.
#![tactic(auto)]

mod digits; // digits.rt: how many digits it has
mod rest; // rest.rt: what lies below the last digit that is kept
mod ones; // ones.rt: the first digits, whether all are 1

pub use digits::digits_of;
pub use ones::ones_first;
pub use rest::{Rest, rest_of, word_rest};
