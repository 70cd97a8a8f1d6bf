// A sum of two regular numbers of one limb each, in a target of three limbs or more: near each other it stands in two limbs and is exact; far apart the larger stands, with a little more below it or a little less.
#![tactic(auto)]

ghost use Rattle.std.specs.Prelude.{◌≡◌, [], ◌∷◌, ◌<◌, length, IfSome};
ghost use Rattle.checks.specs.Room.{Room};
ghost use Rattle.wide.specs.Filling.{Offered};
ghost use Rattle.wide.specs.Attempted.{AttemptsInOrder};
ghost use Rattle.short.specs.Short.{Tells};

mod close; // close.rt: less than a limb apart
mod apart; // apart.rt: more than the answer apart

use apart::add_apart;
use close::add_close;
use rounding::{AsMode, Mode};
use settle::Pair;
use wide::{Attempt, Operands};

// Adds two limbs in order, u the larger.
fn add_in_order(
    mode: Mode,
    negative: bool,
    p: u64,
    pair: Pair,
    swapped: bool,
    u: u64,
    v: u64,
    target: &mut [u64],
) -> Option<Attempt>
    requires { Room p (length target.old) × (2 < length target.old) × Offered pair (u ∷ []) (v ∷ []) }
    ensures { (length target.new ≡ length target.old) × IfSome result (λ a. Tells mode p pair u v negative swapped target.new a) }
{
    if pair.gap < 64 {
        if bounds::is_high(pair.top) | bounds::is_low(pair.top, target.len() as u64) {
            return None;
        }
        return Some(add_close(negative, p, pair, u, v, target));
    }
    if pair.gap <= p + 1 {
        return None;
    }
    Some(add_apart(mode, negative, p, pair, swapped, u, target))
}

// Adds two regular numbers in order, of one limb each, unless they lie at the ends of the range, or are apart by a limb or more and no more than the answer is long.
pub fn attempt<M: AsMode>(mode: M, p: u64, order: &Operands, target: &mut [u64]) -> Option<Attempt>
    requires { Room p (length target.old) × (length order.now.first.now ≡ 1) × (length order.now.second.now ≡ 1) × (2 < length target.old) }
    ensures { (length target.new ≡ length target.old) × AttemptsInOrder (M.mode_in mode) p order.now.negative order.now.pair order.now.swapped order.now.first.now order.now.second.now target.new result }
{
    attempt_under(mode.as_mode(), p, order, target)
}

// The same under a mode.
fn attempt_under(mode: Mode, p: u64, order: &Operands, target: &mut [u64]) -> Option<Attempt>
    requires { Room p (length target.old) × (length order.now.first.now ≡ 1) × (length order.now.second.now ≡ 1) × (2 < length target.old) }
    ensures { (length target.new ≡ length target.old) × AttemptsInOrder mode p order.now.negative order.now.pair order.now.swapped order.now.first.now order.now.second.now target.new result }
{
    add_in_order(
        mode,
        order.negative,
        p,
        order.pair,
        order.swapped,
        order.first[0],
        order.second[0],
        target,
    )
}
