// What the first column of two operands fixes, rounded.
ghost use Rattle.std.specs.Prelude.{◌≡◌, true, not, pos, IfSome};
ghost use Rattle.numbers.specs.Operand.{Operand};
ghost use Rattle.rounding.specs.Sum.{zero_sign};
ghost use Rattle.narrow.specs.Sighting.{Held, AllKept, Told};

use crate::ordered::Tops;
use place::Placed;
use rounding::Mode;

// What one column says: the answer's sign, limb, exponent and ternary value.
#[derive(Clone, Copy)]
pub struct Seen {
    pub negative: bool,
    pub limb: u64,
    pub placed: Placed,
}

// A difference that cancels, the first operand's sign told: a zero of its own sign.
fn cancelled(mode: Mode, negative: bool) -> Seen
    ensures { (result.negative ≡ zero_sign mode negative (not negative)) × (result.limb ≡ 0) × (result.placed ≡ record { rule = 0; exponent = 0; ternary = pos 0 }) }
{
    Seen {
        negative: reports::zero_sign(mode, negative, !negative),
        limb: 0,
        placed: Placed {
            rule: 0,
            exponent: 0,
            ternary: 0,
        },
    }
}

// Whether all digits of two operands of unlike signs are among the first of the column that are asked for: their difference is then exact.
pub fn is_exact(tops: Tops) -> bool
    ensures { result ≡ true → AllKept tops.precision tops.pair }
{
    let pair = tops.pair;
    if pair.same {
        return false;
    }
    (pair.first <= tops.precision) & (pair.gap + pair.second <= tops.precision)
}

// The exact difference of two operands in order: a zero, or what is only brought to the top of the limb, whatever the mode.
pub fn see_exact(mode: Mode, negative: bool, tops: Tops) -> Option<Seen>
    requires { AllKept tops.precision tops.pair }
    ensures { IfSome result (λ s. (x y : Operand) → Held x y tops.pair tops.first tops.second → negative ≡ x.negative → Told mode tops.precision x y s.negative s.limb s.placed) }
{
    let pair = tops.pair;
    let u = tops.first;
    let low = tops.second >> pair.gap;
    if u == low {
        return Some(cancelled(mode, negative));
    }
    if u < low {
        return None;
    }
    let r = place::settle_one(u - low, pair.top - 128, tops.precision);
    let placed = r.placed;
    Some(Seen {
        negative: negative,
        limb: r.limb,
        placed: placed,
    })
}
