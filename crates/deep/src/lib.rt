// A sum that its first column leaves open, of at most 62 digits, each operand having more than a digit below that column. Columns that go on as
// the first one's last digit does, zeros or ones, leave it open; they are passed over in one loop, and the next column mostly fixes it.
#![tactic(auto)]

mod reading; // reading.rt: the columns passed over, and one more
mod filling; // filling.rt: what then fills the target

pub use filling::fill;
