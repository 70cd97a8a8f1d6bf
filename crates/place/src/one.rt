// A run of one limb, by value: its digits from the first on come to the top of the limb, and are rounded there.
//
//     carry | limb | guard | more
//       1 b b b b b b b b b b b            a carry: one bit down
//           0 0 1 b b b b b b b            none: up, as far as there are zeros
//
// What is marked `inline(always)` stands in each of the quick ways, as `round_limb` does.
// The arguments and what is asked of them stand in docs/PROMISES.md: a type that held them with those facts would ask more of a caller.
//
ghost use Rattle.std.specs.Prelude.{◌≡◌, Bool, true, false, not, ◌||◌, [], ◌∷◌, ℕ, ◌+◌, ◌-◌, ◌*◌, ◌/◌, ◌%◌, ◌^◌, ◌≤◌, ◌<◌, eqb};
ghost use Rattle.numbers.specs.Limits.{most_exponent};
ghost use Rattle.rounding.specs.declared.Mode.{Mode};
ghost use Rattle.place.specs.Normal.{Normalized};
ghost use Rattle.place.specs.Placed.{run_rule};
ghost use Rattle.place.specs.Rounded.{rounded_placed, rounded_limbs};

use crate::limits::settle_limb;
use crate::{PlacedLimb, round_limb};
use limb::FIRST_DIGIT;
use rounding::{AsMode, Mode};

// The digits of a run from its first on in one limb and a guard, and the weight of the guard's last digit.
#[derive(Clone, Copy)]
struct Normal {
    limb: u64,
    guard: u64,
    more: bool,
    unit: u64,
}

// The run with its first digit at the top of the limb.
fn normalize(carry: bool, limb: u64, guard: u64, more: bool, unit: u64) -> Normal
    requires { (carry ≡ false → 0 < limb) × (64 < unit) × (unit < 2 * most_exponent) }
    ensures { Normalized carry limb guard more unit result }
{
    if carry {
        let higher = unit + 1;
        return Normal {
            limb: (limb >> 1) | FIRST_DIGIT,
            guard: (limb << 63) | (guard >> 1),
            more: (guard % 2 != 0) | more,
            unit: higher,
        };
    }
    if FIRST_DIGIT <= limb {
        return Normal {
            limb,
            guard,
            more,
            unit,
        };
    }
    let zeros = u64::leading_zeros(limb) as u64;
    let moved = limb << zeros;
    let entering = guard >> (64 - zeros);
    let left = guard << zeros;
    let lower = unit - zeros;
    Normal {
        limb: moved | entering,
        guard: left,
        more,
        unit: lower,
    }
}

// Rounds a run of one limb as `round_fit` does, by value.
pub fn round_one<M: AsMode>(
    negative: bool,
    carry: bool,
    limb: u64,
    guard: u64,
    more: bool,
    unit: u64,
    precision: u64,
    mode: M,
) -> PlacedLimb
    requires { (run_rule precision carry (limb ∷ []) unit ≡ 0) × (64 < unit) × (unit < 2 * most_exponent) }
    ensures placed_value { result.placed ≡ rounded_placed (M.mode_in mode) precision negative unit carry (limb ∷ []) guard more }
    ensures limb_value { result.limb ∷ [] ≡ rounded_limbs (M.mode_in mode) precision negative unit carry (limb ∷ []) guard more }
{
    round_one_under(
        negative,
        carry,
        limb,
        guard,
        more,
        unit,
        precision,
        mode.as_mode(),
    )
}

// The same under a mode.
fn round_one_under(
    negative: bool,
    carry: bool,
    limb: u64,
    guard: u64,
    more: bool,
    unit: u64,
    precision: u64,
    mode: Mode,
) -> PlacedLimb
    requires { (run_rule precision carry (limb ∷ []) unit ≡ 0) × (64 < unit) × (unit < 2 * most_exponent) }
    ensures placed_value { result.placed ≡ rounded_placed mode precision negative unit carry (limb ∷ []) guard more }
    ensures limb_value { result.limb ∷ [] ≡ rounded_limbs mode precision negative unit carry (limb ∷ []) guard more }
{
    let n = normalize(carry, limb, guard, more, unit);
    round_limb(negative, n.limb, n.guard, n.more, n.unit, precision, mode)
}

// A run of one limb whose first digit is the carry or the limb's first, as it is rounded to fewer digits than the limb has: what leaves the limb counts only as something.
fn lower(carry: bool, limb: u64, more: bool, unit: u64) -> Normal
    requires { unit < 2 * most_exponent }
    ensures { (result.guard ≡ 0) × (carry ≡ true → (result.limb ≡ 2 ^ 63 + limb / 2) × (result.more ≡ (not (eqb (limb % 2) 0) || more)) × (result.unit ≡ unit + 1)) × (carry ≡ false → (result.limb ≡ limb) × (result.more ≡ more) × (result.unit ≡ unit)) }
{
    if carry {
        let higher = unit + 1;
        return Normal {
            limb: (limb >> 1) | FIRST_DIGIT,
            guard: 0,
            more: (limb % 2 != 0) | more,
            unit: higher,
        };
    }
    Normal {
        limb,
        guard: 0,
        more,
        unit,
    }
}

// Rounds a run of one limb without a guard as `round_one` does, where its first digit is the carry or the limb's first, and the limb has two digits to spare.
#[inline(always)]
pub fn round_carried<M: AsMode>(
    negative: bool,
    carry: bool,
    limb: u64,
    more: bool,
    unit: u64,
    precision: u64,
    mode: M,
) -> PlacedLimb
    requires { (run_rule precision carry (limb ∷ []) unit ≡ 0) × (64 < unit) × (unit < 2 * most_exponent) × (carry ≡ false → 2 ^ 63 ≤ limb) × (precision ≤ 62) }
    ensures placed_value { result.placed ≡ rounded_placed (M.mode_in mode) precision negative unit carry (limb ∷ []) 0 more }
    ensures limb_value { result.limb ∷ [] ≡ rounded_limbs (M.mode_in mode) precision negative unit carry (limb ∷ []) 0 more }
{
    round_carried_under(negative, carry, limb, more, unit, precision, mode.as_mode())
}

// The same under a mode.
#[inline(always)]
fn round_carried_under(
    negative: bool,
    carry: bool,
    limb: u64,
    more: bool,
    unit: u64,
    precision: u64,
    mode: Mode,
) -> PlacedLimb
    requires { (run_rule precision carry (limb ∷ []) unit ≡ 0) × (64 < unit) × (unit < 2 * most_exponent) × (carry ≡ false → 2 ^ 63 ≤ limb) × (precision ≤ 62) }
    ensures placed_value { result.placed ≡ rounded_placed mode precision negative unit carry (limb ∷ []) 0 more }
    ensures limb_value { result.limb ∷ [] ≡ rounded_limbs mode precision negative unit carry (limb ∷ []) 0 more }
{
    let n = lower(carry, limb, more, unit);
    round_limb(negative, n.limb, n.guard, n.more, n.unit, precision, mode)
}

// Rounds a run of one limb without a carry as `round_one` does: it never goes down.
#[inline(always)]
pub fn round_raised<M: AsMode>(
    negative: bool,
    limb: u64,
    guard: u64,
    more: bool,
    unit: u64,
    precision: u64,
    mode: M,
) -> PlacedLimb
    requires { (run_rule precision false (limb ∷ []) unit ≡ 0) × (64 < unit) × (unit < 2 * most_exponent) }
    ensures placed_value { result.placed ≡ rounded_placed (M.mode_in mode) precision negative unit false (limb ∷ []) guard more }
    ensures limb_value { result.limb ∷ [] ≡ rounded_limbs (M.mode_in mode) precision negative unit false (limb ∷ []) guard more }
{
    round_raised_under(negative, limb, guard, more, unit, precision, mode.as_mode())
}

// The same under a mode.
#[inline(always)]
fn round_raised_under(
    negative: bool,
    limb: u64,
    guard: u64,
    more: bool,
    unit: u64,
    precision: u64,
    mode: Mode,
) -> PlacedLimb
    requires { (run_rule precision false (limb ∷ []) unit ≡ 0) × (64 < unit) × (unit < 2 * most_exponent) }
    ensures placed_value { result.placed ≡ rounded_placed mode precision negative unit false (limb ∷ []) guard more }
    ensures limb_value { result.limb ∷ [] ≡ rounded_limbs mode precision negative unit false (limb ∷ []) guard more }
{
    let n = normalize(false, limb, guard, more, unit);
    round_limb(negative, n.limb, n.guard, n.more, n.unit, precision, mode)
}

// Brings a limb to its top. Where nothing of it lies below the digits kept, it is rounded so under every mode and sign.
pub fn settle_one(limb: u64, unit: u64, precision: u64) -> PlacedLimb
    requires { run_rule precision false (limb ∷ []) unit ≡ 0 }
    ensures { limb % 2 ^ (64 - precision) ≡ 0 → (mode : Mode) (negative : Bool) → (result.placed ≡ rounded_placed mode precision negative unit false (limb ∷ []) 0 false) × (result.limb ∷ [] ≡ rounded_limbs mode precision negative unit false (limb ∷ []) 0 false) }
{
    let zeros = u64::leading_zeros(limb) as u64;
    settle_limb(limb << zeros, unit + 128 - zeros, 0)
}
