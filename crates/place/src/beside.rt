// A number of as many digits as are asked for, and a little more or a little less: what is selected is known without a look at the
// digits.
//
//     target, top limb first | something
//     1 b b b b b b b b b b b | 0 0 .. 1        a little more: less than half of the last digit
//     1 b b b b b b b b b b b | less a little   a little less: more than half of the digit before
//
ghost use Rattle.std.specs.Prelude.{◌≡◌, true, false, List, ℕ, ◌<◌};
ghost use Rattle.numbers.specs.Limits.{most_exponent};
ghost use Rattle.rounding.specs.Mode.{way};
ghost use Rattle.rounding.specs.declared.Mode.{Mode};
ghost use Rattle.location.specs.declared.Location.TheVariants.{Upper};
ghost use Rattle.location.specs.Location.{goes_up};
ghost use Rattle.place.specs.Placed.{placed_of, limbs_after};
ghost use Rattle.place.specs.Beside.{Stored, above_answer, below_answer};

use crate::Placed;
use kept::round_up;
use location::{Location, rounds_up, ternary};
use rounding::{AsMode, Mode};

// Rounds a little more than the number in the target: the last unit is added where the mode goes away from zero.
pub fn round_above<M: AsMode>(
    negative: bool,
    target: &mut [u64],
    exponent: u64,
    precision: u64,
    mode: M,
) -> Placed
    requires { Stored precision exponent target.old × (exponent < most_exponent) }
    ensures value { result ≡ placed_of (above_answer (M.mode_in mode) precision negative exponent target.old) }
    ensures target_after { target.new ≡ limbs_after precision (above_answer (M.mode_in mode) precision negative exponent target.old) }
{
    round_above_under(negative, target, exponent, precision, mode.as_mode())
}

// The same under a mode.
fn round_above_under(
    negative: bool,
    target: &mut [u64],
    exponent: u64,
    precision: u64,
    mode: Mode,
) -> Placed
    requires { Stored precision exponent target.old × (exponent < most_exponent) }
    ensures value { result ≡ placed_of (above_answer mode precision negative exponent target.old) }
    ensures target_after { target.new ≡ limbs_after precision (above_answer mode precision negative exponent target.old) }
{
    let spare = 64 * (target.len() as u64) - precision;
    let up = rounds_up(mode, negative, Location::Lower, false);
    let over = round_up(target, spare, up);
    let raised = exponent + (over as u64);
    Placed {
        rule: 0,
        exponent: raised,
        ternary: ternary(negative, Location::Lower, up),
    }
}

// What is told of a little less than such a number, under a mode that takes it up to the number again: the target stays.
pub fn round_below(negative: bool, exponent: u64) -> Placed
    ensures { (mode : Mode) (p : ℕ) (t : List ℕ) → Stored p exponent t → goes_up (way mode negative) Upper false ≡ true → (result ≡ placed_of (below_answer mode p negative exponent t)) × (t ≡ limbs_after p (below_answer mode p negative exponent t)) }
{
    Placed {
        rule: 0,
        exponent,
        ternary: ternary(negative, Location::Upper, true),
    }
}
