// Operands of one exponent and unlike signs that are alike in the upper of two limbs each: their difference is one limb, and exact.
//
//     first    [ alike ][ u ]
//     second   [ alike ][ v ]
//     target            [ u - v, or v - u ]
//
ghost use Rattle.std.specs.Prelude.{◌≡◌, length};
ghost use Rattle.numbers.specs.Operand.{Operand};
ghost use Rattle.checks.specs.Room.{Room};
ghost use Rattle.wide.specs.Attempted.{Attempted};
ghost use Rattle.aligned.specs.Lower.{Lower, Lowered};

use choice::either;
use place::{Placed, by_fields};
use rounding::{AsMode, Mode};
use wide::Attempt;

// What the lower limbs leave of a difference, rounded to a target of one limb: no column but the second fixes it.
pub fn subtract_lower<M: AsMode>(
    mode: M,
    negative: bool,
    p: u64,
    top: u64,
    u: u64,
    v: u64,
    target: &mut [u64],
) -> Attempt
    requires { Room p (length target.old) × (length target.old ≡ 1) × Lowered u v top }
    ensures { (length target.new ≡ length target.old) × ((x y : Operand) → Lower x y u v top → negative ≡ x.negative → Attempted (M.mode_in mode) p x y target.new result.negative result.placed result.depth result.first result.second) }
{
    subtract_lower_under(mode.as_mode(), negative, p, top, u, v, target)
}

// The same under a mode.
fn subtract_lower_under(
    mode: Mode,
    negative: bool,
    p: u64,
    top: u64,
    u: u64,
    v: u64,
    target: &mut [u64],
) -> Attempt
    requires { Room p (length target.old) × (length target.old ≡ 1) × Lowered u v top }
    ensures { (length target.new ≡ length target.old) × ((x y : Operand) → Lower x y u v top → negative ≡ x.negative → Attempted mode p x y target.new result.negative result.placed result.depth result.first result.second) }
{
    let swapped = u < v;
    let d = either(swapped, u, v) - either(swapped, v, u);
    target[0] = d;
    if d == 0 {
        return Attempt {
            negative: reports::zero_sign(mode, negative, !negative),
            placed: Placed {
                rule: 0,
                exponent: 0,
                ternary: 0,
            },
            depth: 2,
            first: 2,
            second: 2,
        };
    }
    let sign = negative != swapped;
    let placed = place::round_fit(sign, false, target, 0, false, top - 192, p, mode);
    Attempt {
        negative: sign,
        placed: by_fields(placed),
        depth: 2,
        first: 2,
        second: 2,
    }
}
