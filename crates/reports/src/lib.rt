// What a sum reports: the number, the ternary value, the depth, the limbs used of each operand, and the refusal.
#![tactic(auto)]

mod laid_out; // laid_out.rt: the same through memory
mod report; // report.rt: what a sum reports

pub use laid_out::LaidOut;
pub use report::{Rounded, Sum, answered, exchanged, refused, retold, used, zero, zero_sign};
