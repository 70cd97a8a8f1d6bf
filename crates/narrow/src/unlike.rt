// What the first column of two operands of unlike signs fixes, whichever of them is the larger.
ghost use Rattle.std.specs.Prelude.{◌≡◌, true, false, ◌≤◌, IfSome};
ghost use Rattle.numbers.specs.Limits.{least_precision};
ghost use Rattle.numbers.specs.Operand.{Operand};
ghost use Rattle.checks.specs.Held.{regular};
ghost use Rattle.narrow.specs.Sighting.{Held, Told};
ghost use Rattle.narrow.specs.Looked.{Looked};

use crate::column::difference_of;
use crate::looking::{Sight, sight_of};
use crate::ordered::{Tops, tops_of};
use crate::seeing::{Seen, is_exact, see_exact};
use checks::Regular;
use choice::is_second_larger;
use rounding::{AsMode, Mode};

// What the first column of two operands of unlike signs in order fixes: exact, or rounded as the mode says. The first is then seen to be the larger, or all cancels.
#[inline(always)]
fn see_unlike(mode: Mode, negative: bool, tops: Tops) -> Option<Seen>
    requires { tops.pair.same ≡ false }
    ensures { IfSome result (λ s. (x y : Operand) → Held x y tops.pair tops.first tops.second → negative ≡ x.negative → Told mode tops.precision x y s.negative s.limb s.placed) }
{
    if is_exact(tops) {
        return see_exact(mode, negative, tops);
    }
    let c = difference_of(tops)?;
    let r = place::round_raised(
        negative,
        c.limb,
        c.guard,
        c.more,
        tops.pair.top - 128,
        tops.precision,
        mode,
    );
    let placed = r.placed;
    Some(Seen {
        negative: negative,
        limb: r.limb,
        placed: placed,
    })
}

// What the first column of two regular operands of unlike signs fixes; the larger has the sign of the first where they are not swapped.
#[inline(always)]
pub fn look_unlike<M: AsMode>(mode: M, x: Regular, y: Regular, p: u64) -> Option<Sight>
    requires { (least_precision ≤ p) × (p ≤ 62) × (x.number.negative ≡ y.number.negative → ⊥) }
    ensures { IfSome result (Looked (M.mode_in mode) p (regular x.entry) (regular y.entry)) }
{
    look_unlike_under(mode.as_mode(), x, y, p)
}

// The same under a mode.
#[inline(always)]
#[tactic(auto, using(checks::proofs::Held::held_limb))]
fn look_unlike_under(mode: Mode, x: Regular, y: Regular, p: u64) -> Option<Sight>
    requires { (least_precision ≤ p) × (p ≤ 62) × (x.number.negative ≡ y.number.negative → ⊥) }
    ensures { IfSome result (Looked mode p (regular x.entry) (regular y.entry)) }
{
    let u = x.limbs[x.limbs.len() - 1];
    let v = y.limbs[y.limbs.len() - 1];
    let a = checks::counted_exponent(x.number.exponent);
    let b = checks::counted_exponent(y.number.exponent);
    let swapped = is_second_larger(a, b, u, v);
    let tops = tops_of(x, y, p, swapped, false);
    let seen = see_unlike(mode, x.number.negative != swapped, tops)?;
    Some(sight_of(seen, tops, swapped))
}
