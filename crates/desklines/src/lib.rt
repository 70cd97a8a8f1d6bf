// The lines of the desk: what is asked of two numbers, and what is printed.
#![tactic(auto)]

mod order; // order.rt: the desk line
mod telling; // telling.rt: the lines that are printed

pub use order::{Operation, Request, read_order};
pub use telling::{
    AsNumbered, LONGEST_ANSWER, Numbered, longest_answer, put_refusal, put_sum, refuse,
};
