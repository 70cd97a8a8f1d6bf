// What the first column of two operands fixes, whichever of them is the larger.
ghost use Rattle.std.specs.Prelude.{◌≡◌, false, cond, ◌≤◌, IfSome};
ghost use Rattle.numbers.specs.Limits.{least_precision};
ghost use Rattle.numbers.specs.Operand.{Operand};
ghost use Rattle.rounding.specs.declared.Mode.{Mode};
ghost use Rattle.checks.specs.Held.{regular};
ghost use Rattle.narrow.specs.Sighting.{Held, Told};
ghost use Rattle.narrow.specs.Looked.{Looked};

use crate::like::look_like;
use crate::ordered::Tops;
use crate::seeing::Seen;
use crate::unlike::look_unlike;
use checks::Regular;
use choice::either;
use rounding::AsMode;

// What is seen of two operands, and the limbs used of each in their own order.
#[derive(Clone, Copy)]
pub struct Sight {
    pub seen: Seen,
    pub first: u64,
    pub second: u64,
}

// What is seen of two operands in order, as it is told of them in their own: the first column has a limb of the second where that begins in it.
pub fn sight_of(seen: Seen, tops: Tops, swapped: bool) -> Sight
    ensures { (o : Mode) (x y : Operand) → Held (cond swapped y x) (cond swapped x y) tops.pair tops.first tops.second → Told o tops.precision (cond swapped y x) (cond swapped x y) seen.negative seen.limb seen.placed → Looked o tops.precision x y result }
{
    let lower = (tops.pair.gap < 64) as u64;
    Sight {
        seen: seen,
        first: either(swapped, 1, lower),
        second: either(swapped, lower, 1),
    }
}

// What the first column of two regular operands fixes.
pub fn look<M: AsMode>(mode: M, x: Regular, y: Regular, p: u64) -> Option<Sight>
    requires { (least_precision ≤ p) × (p ≤ 62) }
    ensures { IfSome result (Looked (M.mode_in mode) p (regular x.entry) (regular y.entry)) }
{
    let mode = mode.as_mode();
    if x.number.negative == y.number.negative {
        return look_like(mode, x, y, p);
    }
    look_unlike(mode, x, y, p)
}
