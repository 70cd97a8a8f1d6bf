// The columns that fill the target fix the answer: all is read, or the rest lies inside a half.
ghost use Rattle.std.specs.Prelude.{◌≡◌, true, ◌||◌, List, ℕ, ◌-◌, ◌^◌, ◌<◌, ltb, length, get_or};
ghost use Rattle.remnant.specs.Digits.{ShowsDigits};
ghost use Rattle.walk.specs.Window.{Shows};
ghost use Rattle.walk.specs.declared.state.Window.{Window};
ghost use Rattle.settle.specs.Rows.{Modest};
ghost use Rattle.checks.specs.Room.{Room};
ghost use Rattle.descent.specs.Course.{Full, Inside};
ghost use Rattle.wide.specs.Filling.{Promptly, Fills};

use crate::below::{is_hollow, is_read, more_below};
use crate::filling::Filled;
use crate::order::Operands;
use settle::Pair;

// Whether a borrow from below leaves something in the top limb.
pub fn has_lead(carry: bool, target: &[u64]) -> bool
    requires { 0 < length target.now }
    ensures { result ≡ (carry || ltb 1 (get_or target.now (length target.now - 1) 0)) }
{
    carry | (1 < target[target.len() - 1])
}

// How many digits carry and target have.
fn digits_in(carry: bool, target: &[u64]) -> u64
    requires { (0 < length target.now) × (length target.now < 2 ^ 50) }
    ensures { (w : Window) → w.carry ≡ carry → Full w target.now → ShowsDigits w target.now result }
{
    let kept = 64 * (target.len() as u64);
    let top = target[target.len() - 1];
    if carry {
        return kept + 1;
    }
    kept - (u64::leading_zeros(top) as u64)
}

// Whether carry and target have more than p digits, and those below them lie inside a half.
fn is_inside(carry: bool, target: &[u64], p: u64) -> bool
    requires { Room p (length target.now) }
    ensures { result ≡ true → (w : Window) → w.carry ≡ carry → Full w target.now → (k D : ℕ) → Shows w target.now k D → Inside p D }
{
    let digits = digits_in(carry, target);
    if digits <= p {
        return false;
    }
    let drop = digits - p;
    if 64 < drop {
        return false;
    }
    descent::lies_inside(target[0], drop)
}

// What a full target fixes.
pub fn glance_full(p: u64, pair: Pair, carry: bool, target: &[u64]) -> Option<Filled>
    requires { Room p (length target.now) × Modest pair (length target.now) × (0 < pair.second) }
    ensures { (first second before : List ℕ) (w : Window) → Promptly pair first second before target.now w carry → Fills p pair first second target.now result }
{
    if !has_lead(carry, target) {
        return None;
    }
    let k = target.len() as u64;
    if is_read(pair, k) {
        return Some(Filled {
            carry,
            guard: 0,
            more: false,
            depth: k,
        });
    }
    if is_hollow(pair, k) {
        return None;
    }
    if !is_inside(carry, target, p) {
        return None;
    }
    Some(Filled {
        carry,
        guard: 0,
        more: more_below(pair, k),
        depth: k,
    })
}

// Fills the target with as many columns as it has limbs.
pub fn fill_exactly(p: u64, order: &Operands, target: &mut [u64]) -> Option<Filled>
    requires { Room p (length target.old) }
    ensures { (length target.new ≡ length target.old) × Fills p order.now.pair order.now.first.now order.now.second.now target.new result }
{
    let pair = order.pair;
    if !descent::is_prompt(pair, order.first.len(), order.second.len(), 0, target.len()) {
        return None;
    }
    let w = descent::fill(pair, order.first, order.second, 0, target);
    glance_full(p, pair, w.carry, target)
}
