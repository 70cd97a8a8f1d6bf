// What test programs share: lines of the input answered one by one, fields read from a line, fields printed.
//
// Fields stand in lowercase hexadecimal, each of a fixed number of digits, with nothing between them.
#![tactic(auto)]

mod answering; // answering.rt: an answer for each line
mod printing; // printing.rt: fields of an answer
mod reading; // reading.rt: fields of a line
#[cfg(test)]
mod tests; // tests.rt: lines answered, as they are printed

pub use answering::{ANSWER_BYTES, ANSWER_ROOM, Answer, answer_lines, answer_lines_in, answered};
pub use printing::{NO_NUMBER, NumberFields, RefusalFields, put_all};
pub use reading::{Fields, LIMB_ROOM, filled};
