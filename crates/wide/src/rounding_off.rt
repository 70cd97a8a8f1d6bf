// What fills the target, rounded.
ghost use Rattle.std.specs.Prelude.{◌≡◌, Some, length};
ghost use Rattle.checks.specs.Room.{Room};
ghost use Rattle.wide.specs.Filling.{FillsBy};
ghost use Rattle.wide.specs.Attempted.{Answers};

use crate::filling::Filled;
use crate::order::Operands;
use place::Placed;
use rounding::Mode;

// Rounds what fills the target: it is then the sum.
pub fn round(mode: Mode, p: u64, order: &Operands, filled: Filled, target: &mut [u64]) -> Placed
    requires { Room p (length target.old) × FillsBy mode order.now.negative p order.now.pair order.now.first.now order.now.second.now target.old (Some filled) }
    ensures { (length target.new ≡ length target.old) × Answers mode p order.now.negative order.now.pair order.now.first.now order.now.second.now target.new result }
{
    place::round_fit(
        order.negative,
        filled.carry,
        target,
        filled.guard,
        filled.more,
        order.pair.top - 64 * (target.len() as u64 + 1),
        p,
        mode,
    )
}
