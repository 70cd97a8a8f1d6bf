// The 53 digits that a mode selects of a number, out of its two highest limbs and whether anything stands below.
#![tactic(auto)]

ghost use Rattle.std.specs.Prelude.{◌≡◌, not, ◌-◌, ◌*◌, ◌%◌, ◌^◌, ◌≤◌, ◌<◌, eqb, length};
ghost use Rattle.limb.specs.Value.{value_of};
ghost use Rattle.select.specs.Steps.{Leads, Selects};
ghost use Rattle.checks.specs.Held.{regular};

use checks::Regular;
use place::PlacedLimb;
use rounding::{AsMode, Mode};

// The top limb, the limb below it, and whether anything stands below both.
//
//     [top] [guard] [  more  .. low]
//
#[derive(Clone, Copy)]
pub struct Head {
    pub top: u64,
    pub guard: u64,
    pub more: bool,
}

// Whether a limb below the two highest is not 0: the lowest one, and those between.
fn rest_below(limbs: &[u64], precision: u64) -> bool
    requires { (2 < length limbs.now) × (length limbs.now ≤ 64) }
    ensures { result ≡ not (eqb (value_of limbs.now % 2 ^ (64 * (length limbs.now - 2))) 0) }
{
    let n = limbs.len();
    let low = checks::fetch(limbs, precision, 0);
    if low != 0 {
        return true;
    }
    !shifts::low_is_zero(&limbs[1..], 64 * (n - 3))
}

// The leading digits of a number's limbs.
pub fn leading(limbs: &[u64], precision: u64) -> Head
    requires { (0 < length limbs.now) × (length limbs.now ≤ 64) }
    ensures { Leads limbs.now result }
{
    let n = limbs.len();
    let top = checks::fetch(limbs, precision, n - 1);
    if n == 1 {
        return Head {
            top,
            guard: 0,
            more: false,
        };
    }
    let guard = checks::fetch(limbs, precision, n - 2);
    if n == 2 {
        return Head {
            top,
            guard,
            more: false,
        };
    }
    let more = rest_below(limbs, precision);
    Head { top, guard, more }
}

// What is selected of a number, by its leading digits, and its digits at the top of a limb.
pub fn select<M: AsMode>(mode: M, x: Regular, a: Head) -> PlacedLimb
    requires { Leads x.limbs.now a }
    ensures { Selects (M.mode_in mode) (regular x.entry) result }
{
    select_under(mode.as_mode(), x, a)
}

// The same under a mode.
fn select_under(mode: Mode, x: Regular, a: Head) -> PlacedLimb
    requires { Leads x.limbs.now a }
    ensures { Selects mode (regular x.entry) result }
{
    let number = x.number;
    let unit = checks::counted_exponent(number.exponent) - 128;
    place::round_limb(number.negative, a.top, a.guard, a.more, unit, 53, mode)
}
