// Which runs are rounded, and which exponents are in range.
ghost use Rattle.std.specs.Prelude.{◌≡◌, [], ◌∷◌, ◌&&◌, ◌||◌, ◌-◌, ◌*◌, ltb, leb, length, get_or};
ghost use Rattle.numbers.specs.Limits.{least_precision, most_precision, most_exponent};
ghost use Rattle.place.specs.Placed.{run_rule};
ghost use Rattle.place.specs.InRange.{Settled};

use crate::{Placed, PlacedLimb};
use numbers::{LEAST_EXPONENT, LEAST_PRECISION, MOST_EXPONENT, MOST_PRECISION};

// Whether a precision is in range.
fn precision_fits(precision: u64) -> bool
    ensures { result ≡ leb least_precision precision && leb precision most_precision }
{
    (LEAST_PRECISION <= precision) & (precision <= MOST_PRECISION)
}

// The weight of the guard's last digit lies in sight of the exponents.
fn weight_fits(unit: u64) -> bool
    ensures { result ≡ ltb 0 unit && leb unit (2 * most_exponent) }
{
    (0 < unit) & (unit <= 2 * MOST_EXPONENT)
}

// The first digit stands in the carry or in the top limb.
fn has_first(carry: bool, target: &[u64]) -> bool
    ensures { result ≡ carry || ltb 0 (get_or target.now (length target.now - 1) 0) }
{
    carry || target.last().is_some_and(|top| 0 < *top)
}

// The rule by which a run is refused, or 0.
pub fn run_rule(precision: u64, carry: bool, target: &[u64], unit: u64) -> u8
    ensures { result ≡ run_rule precision carry target.now unit }
{
    if !precision_fits(precision) {
        return 2;
    }
    if target.len() as u64 != (precision + 63) / 64 {
        return 3;
    }
    if !weight_fits(unit) {
        return 4;
    }
    if !has_first(carry, target) {
        return 5;
    }
    0
}

// The answer with this exponent. Where it is out of range, the target is cleared.
pub fn settle(target: &mut [u64], exponent: u64, ternary: i8) -> Placed
    ensures { Settled exponent ternary target.old result target.new }
{
    if MOST_EXPONENT < exponent {
        parts::clear(target);
        return Placed {
            rule: 6,
            exponent: 0,
            ternary: 0,
        };
    }
    if exponent < LEAST_EXPONENT {
        parts::clear(target);
        return Placed {
            rule: 7,
            exponent: 0,
            ternary: 0,
        };
    }
    Placed {
        rule: 0,
        exponent,
        ternary,
    }
}

// The same for one limb, by value, so that the quick ways keep it in a register; the range is tested first.
pub fn settle_limb(limb: u64, exponent: u64, ternary: i8) -> PlacedLimb
    ensures { Settled exponent ternary (limb ∷ []) result.placed (result.limb ∷ []) }
{
    if (LEAST_EXPONENT <= exponent) & (exponent <= MOST_EXPONENT) {
        return PlacedLimb {
            placed: Placed {
                rule: 0,
                exponent,
                ternary,
            },
            limb,
        };
    }
    if MOST_EXPONENT < exponent {
        return PlacedLimb {
            placed: Placed {
                rule: 6,
                exponent: 0,
                ternary: 0,
            },
            limb: 0,
        };
    }
    PlacedLimb {
        placed: Placed {
            rule: 7,
            exponent: 0,
            ternary: 0,
        },
        limb: 0,
    }
}
