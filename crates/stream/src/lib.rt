// The desk: groups of three lines from an input that comes in pieces, and what is printed for each.
#![tactic(auto)]

mod number; // number.rt: a number's line
mod answering; // answering.rt: the answer of a group, two numbers and what is asked of them
mod serving; // serving.rt: pieces taken, answers printed

pub use answering::answer;
pub use serving::{Held, Served, finish, finish_held, serve};
