// What is told of a sum that is read at once.
use place::Placed;

// The answer and its sign, the depth, and the limbs used of each operand.
#[derive(Clone, Copy)]
pub struct Attempt {
    pub negative: bool,
    pub placed: Placed,
    pub depth: u64,
    pub first: u64,
    pub second: u64,
}
