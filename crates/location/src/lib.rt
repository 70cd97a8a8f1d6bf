// Where the part below the last kept digit lies, and what each mode makes of it.
#![tactic(auto)]

ghost use Rattle.std.specs.Prelude.{◌≡◌, false, ◌+◌, ◌*◌, ◌%◌, ◌^◌, ◌≤◌, ◌<◌};
ghost use Rattle.limb.specs.Carry.{bit};
ghost use Rattle.rounding.specs.Mode.{way};
ghost use Rattle.rounding.specs.Answer.{signed};
ghost use Rattle.location.specs.Ternary.{ternary_of};
ghost use Rattle.location.specs.Location.{location_of, goes_up, side};

use rounding::{AsMode, Mode};

// Nothing below the last kept digit, or something below, at or above the middle.
#[derive(Clone, Copy, Debug, PartialEq, Eq)]
pub enum Location {
    Exact,
    Lower,
    Tie,
    Upper,
}

// 2^k.
pub fn power(k: u64) -> u64
    requires { k < 64 }
    ensures { result ≡ 2 ^ k }
{
    1 << k
}

// Of the lowest `width` digits of one limb, with a half more where something lies below: the first of them tells the half, and the
// others only whether they are all 0.
fn locate_in(limb: u64, width: u64, more: bool) -> Location
    requires { (0 < width) × (width ≤ 64) }
    ensures { result ≡ location_of (2 * (limb % 2 ^ width) + bit more) (2 ^ (width + 1)) }
{
    let first = (limb >> (width - 1)) % 2;
    let some = (limb % power(width - 1) != 0) | more;
    if first == 0 {
        if some {
            Location::Lower
        } else {
            Location::Exact
        }
    } else {
        if some { Location::Upper } else { Location::Tie }
    }
}

// Of the lowest `width` digits of low and guard: from two limbs only whether the guard is 0 counts.
pub fn locate(low: u64, guard: u64, width: u64, more: bool) -> Location
    requires { (0 < width) × (width ≤ 128) }
    ensures { result ≡ location_of (2 * ((low * 2 ^ 64 + guard) % 2 ^ width) + bit more) (2 ^ (width + 1)) }
{
    if width <= 64 {
        locate_in(guard, width, more)
    } else {
        locate_in(low, width - 64, (guard != 0) | more)
    }
}

// Whether the last unit is added. By tests and not by one match of both, of which the compiler makes tables of jumps: a sum of one limb then misses its bar.
#[tactic(auto, unfolding(crate::specs::Location::goes_up, rounding::specs::Mode::way))]
pub fn rounds_up<M: AsMode>(mode: M, negative: bool, at: Location, odd: bool) -> bool
    ensures { result ≡ goes_up (way (M.mode_in mode) negative) at odd }
{
    let mode = mode.as_mode();
    if mode == Mode::Nearest {
        return match at {
            Location::Exact | Location::Lower => false,
            Location::Tie => odd,
            Location::Upper => true,
        };
    }
    if at == Location::Exact {
        return false;
    }
    match mode {
        Mode::Upward => !negative,
        Mode::Downward => negative,
        _ => false,
    }
}

// The ternary value: the sign of selected minus exact; by tests for the same reason.
#[tactic(auto, unfolding(crate::specs::Ternary::ternary_of, rounding::specs::Answer::signed, crate::specs::Location::side, crate::specs::Location::inexact))]
pub fn ternary(negative: bool, at: Location, up: bool) -> i8
    ensures { result ≡ ternary_of (signed negative (side at up)) }
{
    if at == Location::Exact {
        return 0;
    }
    if negative == up { -1 } else { 1 }
}
