// The hole between two mantissas: is the answer fixed there?
#![tactic(auto)]

ghost use Rattle.std.specs.Prelude.{◌≡◌, Bool, cond, ◌+◌, ◌-◌, ◌/◌, ◌^◌, ◌≤◌, eqb};
ghost use Rattle.std.specs.Float.Ieee.{size};
ghost use Rattle.limb.specs.Value.{value_of};
ghost use Rattle.numbers.specs.Operand.{spare_bits};
ghost use Rattle.rounding.specs.declared.Mode.{Mode};
ghost use Rattle.decide.specs.Table.{odd?, hole?, hole_by_size};
ghost use Rattle.settle.specs.Ways.{theory_way};
ghost use Rattle.hole.specs.Hole.{Formed, InHole, Signs};

use settle::{Pair, Way};

// Whether the last of p digits is 1.
fn last_is_one(limbs: &[u64], p: u64) -> bool
    requires { Formed p limbs.now }
    ensures { result ≡ odd? (value_of limbs.now / 2 ^ spare_bits p) }
{
    let n = limbs.len() as u64;
    let spare = 64 * n - p;
    (checks::fetch(limbs, p, 0) >> spare) % 2 == 1
}

// Whether only the first digit is 1.
fn is_power(limbs: &[u64], p: u64) -> bool
    requires { Formed p limbs.now }
    ensures { let m = value_of limbs.now / 2 ^ spare_bits p in result ≡ eqb m (2 ^ (size m - 1)) }
{
    shifts::low_is_zero(limbs, 64 * limbs.len() - 1)
}

// The digits of the sum down to the second's first; one fewer where a power of two is lessened.
fn hole_digits(gap: u64, shorter: bool) -> u64
    requires { gap ≤ 2 ^ 42 }
    ensures { result ≡ gap + 1 - cond shorter 1 0 }
{
    if shorter {
        return gap;
    }
    gap + 1
}

// Whether so many digits are enough: more than p, and under nearest more than one beyond p, or just one after an odd last digit.
fn is_hole_fixed(way: Way, p: u64, digits: u64, odd: bool) -> bool
    requires { p ≤ 2 ^ 20 }
    ensures { result ≡ hole? (theory_way way) p digits odd }
{
    match way {
        Way::Near => (p + 1 < digits) | ((p + 1 == digits) & odd),
        Way::Under => p < digits,
        Way::Over => p < digits,
    }
}

// Whether the answer is fixed whatever stands in the second operand, whose first digit is the gap's next.
pub fn hole_fixed(way: Way, p: u64, pair: Pair, limbs: &[u64]) -> bool
    requires { InHole pair limbs.now × (p ≤ 2 ^ 20) }
    ensures { (o : Mode) (a b : Bool) → Signs o a b pair way → result ≡ hole_by_size o p a b (value_of limbs.now / 2 ^ spare_bits pair.first) (pair.gap - pair.first) }
{
    let first = pair.first;
    let digits = hole_digits(pair.gap, !pair.same & is_power(limbs, first));
    let odd = (pair.gap == first) & last_is_one(limbs, first);
    is_hole_fixed(way, p, digits, odd)
}
