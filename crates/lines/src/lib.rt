// The stored line: a number as one line of lowercase hexadecimal.
//
//     kind (2)  precision (4)  exponent (8)  limb (16)  ..  limb (16)  LF
//     0         2              6             14, top first
#![tactic(auto)]

mod digits; // digits.rt: a line of digits and its fields

ghost use Rattle.std.specs.Prelude.{◌≡◌};
ghost use Rattle.lines.specs.Line.{shortest_line, longest_line, line_size};

use checks::Number;
pub use digits::{digits_hold, field_at};

// The bytes of a zero's line, LF included.
pub const SHORTEST_LINE: usize = 15;

// The limbs of the largest precision.
pub const MOST_LIMBS: usize = (checks::MOST_PRECISION as usize + 63) / 64;

// The bytes of a regular number's line at the largest precision.
pub const LONGEST_LINE: usize = SHORTEST_LINE + 16 * MOST_LIMBS;

// No line is shorter.
pub fn shortest_line() -> usize
    ensures { result ≡ shortest_line }
{
    SHORTEST_LINE
}

// No line is longer.
pub fn longest_line() -> usize
    ensures { result ≡ longest_line }
{
    LONGEST_LINE
}

// The bytes of a number's line, by its kind and precision.
pub fn line_size(x: Number) -> usize
    ensures { result ≡ line_size x }
{
    if checks::is_zero(x) {
        return SHORTEST_LINE;
    }
    SHORTEST_LINE + 16 * checks::limbs_for(x.precision) as usize
}
