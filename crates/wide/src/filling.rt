// Fills the target at once.
ghost use Rattle.std.specs.Prelude.{◌≡◌, true, length};
ghost use Rattle.settle.specs.Rows.{Modest};
ghost use Rattle.checks.specs.Room.{Room};
ghost use Rattle.wide.specs.Filling.{Fills};
ghost use Rattle.wide.specs.Guarding.{Spent};

use crate::below::{is_hollow, is_read};
use crate::exactly::fill_exactly;
use crate::guarded::fill_guarded;
use crate::hollow::fill_hollow;
use crate::order::Operands;
use settle::Pair;

// What stands in the target is a run: carry, target, guard, and more below it; so many columns fix it.
#[derive(Clone, Copy)]
pub struct Filled {
    pub carry: bool,
    pub guard: u64,
    pub more: bool,
    pub depth: u64,
}

// Whether a column below the target is needed: it has no digit to spare, and n columns leave some unread.
pub fn needs_guard(p: u64, pair: Pair, n: u64) -> bool
    requires { Modest pair n }
    ensures { result ≡ true → Spent p pair n }
{
    if p != 64 * n {
        return false;
    }
    !is_read(pair, n) & (pair.gap < p)
}

// Fills the target in the way that may fix the answer, or leaves it open.
pub fn fill(p: u64, order: &Operands, target: &mut [u64]) -> Option<Filled>
    requires { Room p (length target.old) }
    ensures { (length target.new ≡ length target.old) × Fills p order.now.pair order.now.first.now order.now.second.now target.new result }
{
    let n = target.len() as u64;
    let pair = order.pair;
    if is_hollow(pair, n) {
        return fill_hollow(p, order, target);
    }
    if needs_guard(p, pair, n) {
        return fill_guarded(p, order, target);
    }
    fill_exactly(p, order, target)
}
