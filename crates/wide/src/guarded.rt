// The target has no digit to spare: the columns that fill it fix nothing, and one more, as the guard, fixes the answer.
ghost use Rattle.std.specs.Prelude.{◌≡◌, true, List, ℕ, ◌+◌, ◌-◌, ◌*◌, ◌%◌, ◌^◌, ◌≤◌, ◌<◌, length};
ghost use Rattle.std.specs.Float.Ieee.{size};
ghost use Rattle.settle.specs.Rows.{Modest};
ghost use Rattle.checks.specs.Room.{Room};
ghost use Rattle.descent.specs.Course.{Inland};
ghost use Rattle.wide.specs.Filling.{Fills};
ghost use Rattle.wide.specs.Guarding.{Spent, Guards};

use crate::below::{is_read, more_below};
use crate::filling::Filled;
use crate::order::Operands;
use settle::Pair;

// Whether the last digits of the guard, as many as the top limb has, the first of them left out, are neither all zeros nor all ones.
fn is_inside(top: u64, guard: u64) -> bool
    requires { 1 < top }
    ensures { result ≡ true → (1 ≤ guard % 2 ^ (size top - 1)) × (guard % 2 ^ (size top - 1) + 1 < 2 ^ (size top - 1)) }
{
    let drop = 64 - (u64::leading_zeros(top) as u64);
    descent::lies_inside(guard, drop)
}

// What a full target and a guard fix.
pub fn glance_guarded(p: u64, pair: Pair, guard: u64, target: &[u64]) -> Option<Filled>
    requires { Room p (length target.now) × Modest pair (length target.now + 1) × (0 < pair.second) }
    ensures { (first second : List ℕ) → Guards p pair first second target.now guard → Fills p pair first second target.now result }
{
    let top = target[target.len() - 1];
    if top <= 1 {
        return None;
    }
    let k = target.len() as u64 + 1;
    if is_read(pair, k) {
        return Some(Filled {
            carry: false,
            guard,
            more: false,
            depth: k,
        });
    }
    if !is_inside(top, guard) {
        return None;
    }
    Some(Filled {
        carry: false,
        guard,
        more: more_below(pair, k),
        depth: k,
    })
}

// Whether column n begins in the lowest limb of the second operand or above, and no refusal is near after n columns.
fn reaches_on(pair: Pair, second: usize, n: u64) -> bool
    requires { (pair.gap ≤ 2 ^ 42) × (pair.top ≤ 2 ^ 42) × (second ≤ 2 ^ 20) × (n ≤ 2 ^ 20) }
    ensures { result ≡ true → (64 * n ≤ 64 * second + pair.gap) × Inland pair n }
{
    if 64 * (second as u64) + pair.gap < 64 * n {
        return false;
    }
    descent::is_inland(pair, n)
}

// Fills the target with as many columns as it has limbs, and reads one more.
pub fn fill_guarded(p: u64, order: &Operands, target: &mut [u64]) -> Option<Filled>
    requires { Room p (length target.old) × Spent p order.now.pair (length target.old) }
    ensures { (length target.new ≡ length target.old) × Fills p order.now.pair order.now.first.now order.now.second.now target.new result }
{
    let n = target.len() as u64;
    let pair = order.pair;
    if !descent::is_prompt(pair, order.first.len(), order.second.len(), 0, target.len()) {
        return None;
    }
    if !reaches_on(pair, order.second.len(), n) {
        return None;
    }
    let run = leap::guarded_columns(
        pair.same,
        target,
        order.first,
        pair.first,
        order.second,
        pair.second,
        pair.gap,
        n,
    );
    if run.carry {
        return None;
    }
    glance_guarded(p, pair, run.guard, target)
}
