// Two operands in order, by the limbs that their first column begins with.
ghost use Rattle.std.specs.Prelude.{◌≡◌, true, false, cond, ◌≤◌};
ghost use Rattle.std.specs.Bool.{beq};
ghost use Rattle.numbers.specs.Limits.{least_precision, counted};
ghost use Rattle.checks.specs.Held.{regular};
ghost use Rattle.narrow.specs.Sighting.{Held, Facing};

use checks::Regular;
use choice::either;
use settle::Pair;

// The digits asked for, which one limb holds with two to spare, the pair of two operands in order, and the top limb of each.
#[derive(Clone, Copy)]
pub struct Tops {
    pub precision: u64,
    pub pair: Pair,
    pub first: u64,
    pub second: u64,
    ghost facing: { Facing precision pair first },
}

// Two regular operands in the order of their exponents: the second comes first where `swapped` says so.
#[tactic(auto, using(checks::proofs::Held::held_limb))]
pub fn tops_of(x: Regular, y: Regular, p: u64, swapped: bool, same: bool) -> Tops
    requires { (least_precision ≤ p) × (p ≤ 62) × (swapped ≡ true → counted x.number.exponent ≤ counted y.number.exponent) × (swapped ≡ false → counted y.number.exponent ≤ counted x.number.exponent) × (same ≡ beq x.number.negative y.number.negative) }
    ensures { (result.precision ≡ p) × (result.pair.same ≡ same) × Held (cond swapped (regular y.entry) (regular x.entry)) (cond swapped (regular x.entry) (regular y.entry)) result.pair result.first result.second }
{
    let u = x.limbs[x.limbs.len() - 1];
    let v = y.limbs[y.limbs.len() - 1];
    let a = checks::counted_exponent(x.number.exponent);
    let b = checks::counted_exponent(y.number.exponent);
    let top = either(swapped, a, b);
    let gap = top - either(swapped, b, a);
    let pair = Pair {
        same: same,
        first: either(swapped, x.number.precision, y.number.precision),
        second: either(swapped, y.number.precision, x.number.precision),
        gap: gap,
        top: top,
    };
    Tops {
        precision: p,
        pair: pair,
        first: either(swapped, u, v),
        second: either(swapped, v, u),
    }
}
