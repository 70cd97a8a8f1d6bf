// A sum whose second operand begins below all columns of the target and more than a digit below those asked for: the answer is that of the first and a little more, or a little less, whatever stands in the second.
//
//     column      0                     n - 1     guard
//     first    [ top limb  ..  lowest limb ]
//     second                                       .. [ limb ..
//
#![tactic(auto)]

ghost use Rattle.std.specs.Prelude.{◌≡◌, true, false, ◌+◌, ◌*◌, ◌≤◌, ◌<◌, length};
ghost use Rattle.rounding.specs.Mode.{way};
ghost use Rattle.location.specs.declared.Location.TheVariants.{Upper};
ghost use Rattle.location.specs.Location.{goes_up};
ghost use Rattle.checks.specs.Room.{Room};
ghost use Rattle.wide.specs.Attempted.{AttemptsInOrder};
ghost use Rattle.wide.specs.Beside.{Beside};
ghost use Rattle.far.specs.Alone.{Alone, Answered};

use choice::either;
use location::{Location, rounds_up};
use parts::copy;
use place::{Placed, by_fields};
use rounding::{AsMode, Mode};
use settle::Pair;
use wide::{Attempt, Operands};

// Fills the target with the first operand's limbs, or with one less. Returns the guard below them.
fn fill(same: bool, first: &[u64], target: &mut [u64]) -> u64
    requires { length first.now ≡ length target.old }
    ensures { Beside same first.now target.new result }
{
    copy(target, first);
    wide::beside(same, target)
}

// Rounds the first operand and a little more, or a little less: its limbs, or one less, and a guard.
fn round_beside(mode: Mode, p: u64, order: &Operands, target: &mut [u64]) -> Placed
    requires { Alone p order.now.pair order.now.first.now target.old }
    ensures { Answered mode p order.now.negative order.now.pair order.now.first.now result target.new }
{
    let guard = fill(order.pair.same, order.first, target);
    place::round_fit(
        order.negative,
        false,
        target,
        guard,
        true,
        order.pair.top - 64 * (target.len() as u64 + 1),
        p,
        mode,
    )
}

// Whether the first operand has no more digits than are asked for, and a little less than it is taken up to it again.
fn is_kept(mode: Mode, p: u64, negative: bool, pair: Pair) -> bool
    ensures { result ≡ true → (pair.first ≤ p) × (pair.same ≡ false → goes_up (way mode negative) Upper false ≡ true) }
{
    if p < pair.first {
        return false;
    }
    if pair.same {
        return true;
    }
    rounds_up(mode, negative, Location::Upper, false)
}

// Rounds the same where it is so: the first operand's limbs, perhaps with the last unit.
fn round_kept(mode: Mode, p: u64, order: &Operands, target: &mut [u64]) -> Placed
    requires { Alone p order.now.pair order.now.first.now target.old × (order.now.pair.first ≤ p) × (order.now.pair.same ≡ false → goes_up (way mode order.now.negative) Upper false ≡ true) }
    ensures { Answered mode p order.now.negative order.now.pair order.now.first.now result target.new }
{
    copy(target, order.first);
    let pair = order.pair;
    if pair.same {
        return place::round_above(order.negative, target, pair.top, p, mode);
    }
    place::round_below(order.negative, pair.top)
}

// Rounds the first operand and a little more, or a little less.
fn round(mode: Mode, p: u64, order: &Operands, target: &mut [u64]) -> Placed
    requires { Alone p order.now.pair order.now.first.now target.old }
    ensures { Answered mode p order.now.negative order.now.pair order.now.first.now result target.new }
{
    if is_kept(mode, p, order.negative, order.pair) {
        return round_kept(mode, p, order, target);
    }
    round_beside(mode, p, order, target)
}

// Adds two such numbers, where no refusal is near.
pub fn attempt<M: AsMode>(mode: M, p: u64, order: &Operands, target: &mut [u64]) -> Option<Attempt>
    requires { Room p (length target.old) × (length order.now.first.now ≡ length target.old) × (64 * length target.old ≤ order.now.pair.gap) × (p + 1 < order.now.pair.gap) }
    ensures { (length target.new ≡ length target.old) × AttemptsInOrder (M.mode_in mode) p order.now.negative order.now.pair order.now.swapped order.now.first.now order.now.second.now target.new result }
{
    attempt_under(mode.as_mode(), p, order, target)
}

// The same under a mode.
fn attempt_under(mode: Mode, p: u64, order: &Operands, target: &mut [u64]) -> Option<Attempt>
    requires { Room p (length target.old) × (length order.now.first.now ≡ length target.old) × (64 * length target.old ≤ order.now.pair.gap) × (p + 1 < order.now.pair.gap) }
    ensures { (length target.new ≡ length target.old) × AttemptsInOrder mode p order.now.negative order.now.pair order.now.swapped order.now.first.now order.now.second.now target.new result }
{
    let n = target.len() as u64;
    if !descent::is_inland(order.pair, n - 1) {
        return None;
    }
    let placed = round(mode, p, order, target);
    Some(Attempt {
        negative: order.negative,
        placed: by_fields(placed),
        depth: n,
        first: either(order.swapped, n, 0),
        second: either(order.swapped, 0, n),
    })
}
