// Two limbs less than a limb apart: their sum stands in two limbs and is exact.
ghost use Rattle.std.specs.Prelude.{◌≡◌, Bool, true, false, cond, [], ◌∷◌, ◌+◌, ◌-◌, ◌*◌, ◌%◌, ◌^◌, ◌≤◌, ◌<◌, ltb, leb, length};
ghost use Rattle.limb.specs.Value.{value_of};
ghost use Rattle.numbers.specs.Limits.{least_exponent, most_exponent};
ghost use Rattle.rounding.specs.declared.Mode.{Mode};
ghost use Rattle.checks.specs.Room.{Room};
ghost use Rattle.wide.specs.Filling.{Offered};
ghost use Rattle.twolimbs.specs.Two.{head_in};
ghost use Rattle.short.specs.Short.{Tells};

use place::Placed;
use settle::Pair;
use twolimbs::{Head, columns, difference, normalize, sum};
use wide::Attempt;

// Two limbs at the top of the target, and zeros below.
pub fn write(target: &mut [u64], high: u64, low: u64)
    requires { 1 < length target.old }
    ensures { (length target.new ≡ length target.old) × (value_of target.new ≡ head_in (2 ^ 64) false high low * (2 ^ 64) ^ (length target.old - 2)) }
{
    let n = target.len();
    parts::clear(target);
    target[n - 1] = high;
    target[n - 2] = low;
}

// The columns that fix an exact sum: one where both operands end in it.
fn depth(gap: u64, second: u64) -> u64
    requires { (gap < 64) × (second ≤ 64) }
    ensures { result ≡ cond (leb (gap + second) 64) 1 2 }
{
    if gap + second <= 64 { 1 } else { 2 }
}

// The sum of two limbs, or their difference.
fn combine(same: bool, u: u64, v: u64, gap: u64) -> Head
    requires { (gap < 64) × (same ≡ false → v * 2 ^ (64 - gap) < u * 2 ^ 64) }
    ensures { (head_in (2 ^ 64) result.carry result.high result.low ≡ cond same (u * 2 ^ 64 + v * 2 ^ (64 - gap)) (u * 2 ^ 64 - v * 2 ^ (64 - gap))) × (result.carry ≡ true → result.low % 2 ≡ 0) }
{
    let c = columns(v, gap);
    if same {
        return sum(u, c.high, c.low);
    }
    let larger = Head {
        carry: false,
        high: u,
        low: 0,
    };
    difference(larger, c)
}

// Adds two limbs in order, u the larger.
pub fn add_close(negative: bool, p: u64, pair: Pair, u: u64, v: u64, target: &mut [u64]) -> Attempt
    requires { Room p (length target.old) × (2 < length target.old) × Offered pair (u ∷ []) (v ∷ []) × (pair.gap < 64) × (ltb most_exponent (pair.top + 2) ≡ false) × (ltb (pair.top + 1) (least_exponent + 64 * length target.old) ≡ false) }
    ensures { (length target.new ≡ length target.old) × ((o : Mode) (swapped : Bool) → Tells o p pair u v negative swapped target.new result) }
{
    let h = combine(pair.same, u, v, pair.gap);
    let n = normalize(h.carry, h.high, h.low, pair.top);
    write(target, n.high, n.low);
    let placed = Placed {
        rule: 0,
        exponent: n.exponent,
        ternary: 0,
    };
    Attempt {
        negative,
        placed,
        depth: depth(pair.gap, pair.second),
        first: 1,
        second: 1,
    }
}
