// What the first column of two operands of one sign fixes, whichever of them is the larger.
ghost use Rattle.std.specs.Prelude.{◌≡◌, true, false, ◌≤◌, IfSome};
ghost use Rattle.numbers.specs.Limits.{least_precision};
ghost use Rattle.numbers.specs.Operand.{Operand};
ghost use Rattle.checks.specs.Held.{regular};
ghost use Rattle.narrow.specs.Sighting.{Held, Told};
ghost use Rattle.narrow.specs.Looked.{Looked};

use crate::column::sum_of;
use crate::looking::{Sight, sight_of};
use crate::ordered::{Tops, tops_of};
use crate::seeing::Seen;
use checks::Regular;
use rounding::{AsMode, Mode};

// What the first column of two operands of one sign in order fixes, rounded as the mode says.
#[inline(always)]
fn see_like(mode: Mode, negative: bool, tops: Tops) -> Option<Seen>
    requires { tops.pair.same ≡ true }
    ensures { IfSome result (λ s. (x y : Operand) → Held x y tops.pair tops.first tops.second → negative ≡ x.negative → Told mode tops.precision x y s.negative s.limb s.placed) }
{
    let c = sum_of(tops)?;
    let r = place::round_carried(
        negative,
        c.carry,
        c.limb,
        c.more,
        tops.pair.top - 128,
        tops.precision,
        mode,
    );
    let placed = r.placed;
    Some(Seen {
        negative: negative,
        limb: r.limb,
        placed: placed,
    })
}

// What the first column of two regular operands of one sign fixes: with one exponent either may come first.
#[inline(always)]
pub fn look_like<M: AsMode>(mode: M, x: Regular, y: Regular, p: u64) -> Option<Sight>
    requires { (least_precision ≤ p) × (p ≤ 62) × (x.number.negative ≡ y.number.negative) }
    ensures { IfSome result (Looked (M.mode_in mode) p (regular x.entry) (regular y.entry)) }
{
    look_like_under(mode.as_mode(), x, y, p)
}

// The same under a mode.
#[inline(always)]
fn look_like_under(mode: Mode, x: Regular, y: Regular, p: u64) -> Option<Sight>
    requires { (least_precision ≤ p) × (p ≤ 62) × (x.number.negative ≡ y.number.negative) }
    ensures { IfSome result (Looked mode p (regular x.entry) (regular y.entry)) }
{
    let a = checks::counted_exponent(x.number.exponent);
    let b = checks::counted_exponent(y.number.exponent);
    let swapped = a < b;
    let tops = tops_of(x, y, p, swapped, true);
    let seen = see_like(mode, x.number.negative, tops)?;
    Some(sight_of(seen, tops, swapped))
}
