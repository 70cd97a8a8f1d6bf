// What the first column of an operand alone fixes.
ghost use Rattle.std.specs.Prelude.{◌≡◌, true, false, ◌-◌, ◌%◌, ◌^◌, ◌≤◌, IfSome};
ghost use Rattle.numbers.specs.Limits.{least_precision};
ghost use Rattle.numbers.specs.Operand.{Operand, WellFormed};
ghost use Rattle.checks.specs.Held.{regular};
ghost use Rattle.narrow.specs.Sighting.{Told};
ghost use Rattle.narrow.specs.Looked.{Looked};
ghost use Rattle.narrow.specs.Lone.{Lone, Beside};

use crate::looking::Sight;
use crate::seeing::Seen;
use checks::Regular;
use rounding::{AsMode, Mode};

// Whether the digits of a limb below the half of the last one kept are not all 0.
fn has_rest(p: u64, u: u64) -> bool
    requires { p ≤ 62 }
    ensures { result ≡ true → 1 ≤ u % 2 ^ (64 - p - 1) }
{
    u << (p + 1) != 0
}

// What the first column of a regular operand beside a zero fixes: the column has all its digits, or those seen tell on which side of an exact
// number and of a tie it lies.
fn see_alone(mode: Mode, negative: bool, p: u64, first: u64, top: u64, u: u64) -> Option<Seen>
    requires { Lone p top u }
    ensures { IfSome result (λ s. (x z : Operand) → Beside x z first top u → negative ≡ x.negative → Told mode p x z s.negative s.limb s.placed) }
{
    let fixed = (first <= 64) | has_rest(p, u);
    if !fixed {
        return None;
    }
    let r = place::round_limb(negative, u, 0, false, top - 128, p, mode);
    let placed = r.placed;
    Some(Seen {
        negative: negative,
        limb: r.limb,
        placed: placed,
    })
}

// What the first column of a regular operand fixes, whichever zero stands beside it.
pub fn look_alone<M: AsMode>(mode: M, x: Regular, p: u64) -> Option<Sight>
    requires { (least_precision ≤ p) × (p ≤ 62) }
    ensures { IfSome result (λ s. (z : Operand) → WellFormed z → z.is_zero ≡ true → Looked (M.mode_in mode) p (regular x.entry) z s) }
{
    look_alone_under(mode.as_mode(), x, p)
}

// The same under a mode.
#[tactic(auto, using(checks::proofs::Held::held_limb))]
fn look_alone_under(mode: Mode, x: Regular, p: u64) -> Option<Sight>
    requires { (least_precision ≤ p) × (p ≤ 62) }
    ensures { IfSome result (λ s. (z : Operand) → WellFormed z → z.is_zero ≡ true → Looked mode p (regular x.entry) z s) }
{
    let number = x.number;
    let u = x.limbs[x.limbs.len() - 1];
    let negative = number.negative;
    let top = checks::counted_exponent(number.exponent);
    let seen = see_alone(mode, negative, p, number.precision, top, u)?;
    Some(Sight {
        seen: seen,
        first: 1,
        second: 0,
    })
}
