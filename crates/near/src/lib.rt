// A sum of two regular numbers in order whose exponents are 1 to 63 apart, each with as many limbs as the target: one walk fills it.
//
//     first    [ top limb  ..  lowest limb ]
//     second       [ top limb  ..  lowest limb ]
//     target   [ top limb  ..  lowest limb ]
//     guard                                 [ limb ]
//
#![tactic(auto)]

ghost use Rattle.std.specs.Prelude.{◌≡◌, length};
ghost use Rattle.checks.specs.Room.{Room};
ghost use Rattle.wide.specs.Attempted.{AttemptsInOrder};
ghost use Rattle.near.specs.Abreast.{Abreast};

mod filling; // filling.rt: one walk fills the target

use filling::fill;
use place::by_fields;
use rounding::{AsMode, Mode};
use wide::{Attempt, Operands};

// Adds two such numbers, the second with its own sign, where the columns that fill the target, or one more, fix the answer.
pub fn attempt<M: AsMode>(mode: M, p: u64, order: &Operands, target: &mut [u64]) -> Option<Attempt>
    requires { Room p (length target.old) × Abreast order.now.pair order.now.first.now order.now.second.now (length target.old) }
    ensures { (length target.new ≡ length target.old) × AttemptsInOrder (M.mode_in mode) p order.now.negative order.now.pair order.now.swapped order.now.first.now order.now.second.now target.new result }
{
    attempt_under(mode.as_mode(), p, order, target)
}

// The same under a mode.
fn attempt_under(mode: Mode, p: u64, order: &Operands, target: &mut [u64]) -> Option<Attempt>
    requires { Room p (length target.old) × Abreast order.now.pair order.now.first.now order.now.second.now (length target.old) }
    ensures { (length target.new ≡ length target.old) × AttemptsInOrder mode p order.now.negative order.now.pair order.now.swapped order.now.first.now order.now.second.now target.new result }
{
    let filled = fill(p, order, target)?;
    let n = target.len() as u64;
    let placed = wide::round(mode, p, order, filled, target);
    Some(Attempt {
        negative: order.negative,
        placed: by_fields(placed),
        depth: filled.depth,
        first: n,
        second: n,
    })
}
