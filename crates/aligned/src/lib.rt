// Two regular numbers of one exponent, each with as many limbs as the target: every column is read, and the sum is exact before it is rounded.
//
//     column      0            z               n - 1
//     first    [ alike     | a   a   ..   a       ]
//     second   [ alike     | b   b   ..   b       ]
//     target   [ a - b   a - b   ..   a - b | 0 0 ]     of unlike signs
//
#![tactic(auto)]

ghost use Rattle.std.specs.Prelude.{◌≡◌, false, cond, ℕ, ◌+◌, ◌-◌, ◌*◌, ◌%◌, ◌^◌, ◌≤◌, ◌<◌, ltb, length, get_or};
ghost use Rattle.std.specs.Bool.{beq};
ghost use Rattle.limb.specs.Value.{value_of};
ghost use Rattle.numbers.specs.Operand.{Operand};
ghost use Rattle.rounding.specs.declared.Mode.{Mode};
ghost use Rattle.checks.specs.Held.{regular};
ghost use Rattle.place.specs.Placed.{run_rule};
ghost use Rattle.checks.specs.Room.{Room};
ghost use Rattle.wide.specs.Attempted.{Attempted, Attempts};
ghost use Rattle.aligned.specs.Aligned.{Aligned, Cancelling, Alike, Reducible, Subtracted, Standing};

mod few; // few.rt: one or two limbs, by value
mod level; // level.rt: two limbs each that are alike in the upper one, into one limb

use checks::Regular;
use choice::either;
pub use level::subtract_lower;
use place::{Placed, by_fields};
use rounding::{AsMode, Mode};
use wide::Attempt;

// How many limbs at the top of two runs of one length are alike.
fn alike(a: &[u64], b: &[u64]) -> usize
    requires { length b.now ≡ length a.now }
    ensures { Alike a.now b.now result }
{
    let n = a.len();
    for i in 0..n {
        if a[n - 1 - i] != b[n - 1 - i] {
            return i;
        }
    }
    n
}

// Whether the second of two runs is larger in the limb below the top z.
fn is_second_larger(a: &[u64], b: &[u64], z: usize) -> bool
    requires { (z < length a.now) × (length b.now ≡ length a.now) }
    ensures { result ≡ ltb (get_or a.now (length a.now - 1 - z) 0) (get_or b.now (length a.now - 1 - z) 0) }
{
    let i = a.len() - 1 - z;
    a[i] < b[i]
}

// The difference of two runs below their top z limbs, moved up by as many.
fn subtract_below(target: &mut [u64], z: usize, first: &[u64], second: &[u64])
    requires { Reducible first.now second.now (length target.old) z }
    ensures { Subtracted first.now second.now target.old target.new z }
{
    let m = target.len() - z;
    parts::clear(&mut target[0..z]);
    fused::difference(&mut target[z..], &first[0..m], &second[0..m]);
}

// The same, the second run first where so said.
fn subtract_in_order<'a>(target: &mut [u64], z: usize, swapped: bool, a: &'a [u64], b: &'a [u64])
    requires { Reducible (cond swapped b.now a.now) (cond swapped a.now b.now) (length target.old) z }
    ensures { Subtracted (cond swapped b.now a.now) (cond swapped a.now b.now) target.old target.new z }
{
    let first = either(swapped, a, b);
    let second = either(swapped, b, a);
    subtract_below(target, z, first, second);
}

// Rounds what stands in the target: all of a sum, moved up by so many columns.
fn round_whole(
    mode: Mode,
    negative: bool,
    carry: bool,
    skipped: u64,
    top: u64,
    p: u64,
    target: &mut [u64],
) -> Attempt
    requires { (64 * (length target.old + skipped + 1) ≤ top) × (run_rule p carry target.old (top - 64 * (length target.old + skipped + 1)) ≡ 0) }
    ensures { (length target.new ≡ length target.old) × (result.second ≡ result.first) × ((x y : Operand) → Standing p x y target.old carry skipped top → negative ≡ x.negative → Attempted mode p x y target.new result.negative result.placed result.depth result.first result.second) }
{
    let n = target.len() as u64;
    let placed = place::round_fit(
        negative,
        carry,
        target,
        0,
        false,
        top - 64 * (n + skipped + 1),
        p,
        mode,
    );
    Attempt {
        negative,
        placed: by_fields(placed),
        depth: n,
        first: n,
        second: n,
    }
}

// The same for a difference of which nothing lies below the digits kept, whatever the mode.
fn settle_whole(negative: bool, skipped: u64, top: u64, p: u64, target: &mut [u64]) -> Attempt
    requires { (64 * (length target.old + skipped + 1) ≤ top) × (run_rule p false target.old (top - 64 * (length target.old + skipped + 1)) ≡ 0) × (value_of target.old % 2 ^ (64 * length target.old - p) ≡ 0) }
    ensures { (length target.new ≡ length target.old) × (result.second ≡ result.first) × ((mode : Mode) (x y : Operand) → Standing p x y target.old false skipped top → negative ≡ x.negative → Attempted mode p x y target.new result.negative result.placed result.depth result.first result.second) }
{
    let n = target.len() as u64;
    let unit = top - 64 * (n + skipped + 1);
    let placed = place::round_exact(target, unit, p);
    Attempt {
        negative,
        placed: by_fields(placed),
        depth: n,
        first: n,
        second: n,
    }
}

// All limbs are alike: a zero, with no limb left unread.
fn cancelled(mode: Mode, a: bool, b: bool, target: &mut [u64]) -> Attempt
    ensures { (length target.new ≡ length target.old) × ((p : ℕ) (x y : Operand) → Room p (length target.old) → Cancelling x y (length target.old) → a ≡ x.negative → b ≡ y.negative → Attempted mode p x y target.new result.negative result.placed result.depth result.first result.second) }
{
    let n = target.len() as u64;
    parts::clear(target);
    let placed = Placed {
        rule: 0,
        exponent: 0,
        ternary: 0,
    };
    Attempt {
        negative: reports::zero_sign(mode, a, b),
        placed,
        depth: n,
        first: n,
        second: n,
    }
}

// Two operands of unlike signs. Left open where a refusal is near, and where a borrow empties the target's top limb.
fn subtract(
    mode: Mode,
    x: Regular,
    y: Regular,
    top: u64,
    p: u64,
    target: &mut [u64],
) -> Option<Attempt>
    requires { Room p (length target.old) × Aligned (regular x) (regular y) (length target.old) × (beq x.number.negative y.number.negative ≡ false) × (top ≡ (regular x).exponent) }
    ensures { (length target.new ≡ length target.old) × Attempts mode p (regular x.entry) (regular y.entry) target.new result }
{
    let n = target.len();
    if bounds::is_low(top, n as u64) {
        return None;
    }
    let a = x.number;
    let b = y.number;
    let z = alike(x.limbs, y.limbs);
    if z == n {
        return Some(cancelled(mode, a.negative, b.negative, target));
    }
    let swapped = is_second_larger(x.limbs, y.limbs, z);
    subtract_in_order(target, z, swapped, x.limbs, y.limbs);
    if target[n - 1] == 0 {
        return None;
    }
    let negative = a.negative != swapped;
    if (a.precision <= p) & (b.precision <= p) {
        return Some(settle_whole(negative, z as u64, top, p, target));
    }
    Some(round_whole(mode, negative, false, z as u64, top, p, target))
}

// Two operands of unlike signs: one or two limbs by value where all digits of the difference are kept, else limb by limb.
fn subtract_any(
    mode: Mode,
    x: Regular,
    y: Regular,
    top: u64,
    p: u64,
    target: &mut [u64],
) -> Option<Attempt>
    requires { Room p (length target.old) × Aligned (regular x) (regular y) (length target.old) × (beq x.number.negative y.number.negative ≡ false) × (top ≡ (regular x).exponent) }
    ensures { (length target.new ≡ length target.old) × Attempts mode p (regular x.entry) (regular y.entry) target.new result }
{
    if few::are_few(x.number.precision, y.number.precision, p, target.len()) {
        return few::subtract(mode, x, y, top, target);
    }
    subtract(mode, x, y, top, p, target)
}

// Adds two regular numbers of one exponent that have as many limbs as the target.
pub fn attempt<M: AsMode>(
    mode: M,
    x: Regular,
    y: Regular,
    p: u64,
    target: &mut [u64],
) -> Option<Attempt>
    requires { (x.number.exponent ≡ y.number.exponent) × (length x.limbs.now ≡ length target.old) × (length y.limbs.now ≡ length target.old) × Room p (length target.old) }
    ensures { (length target.new ≡ length target.old) × Attempts (M.mode_in mode) p (regular x.entry) (regular y.entry) target.new result }
{
    attempt_under(mode.as_mode(), x, y, p, target)
}

// The same under a mode.
fn attempt_under(mode: Mode, x: Regular, y: Regular, p: u64, target: &mut [u64]) -> Option<Attempt>
    requires { (x.number.exponent ≡ y.number.exponent) × (length x.limbs.now ≡ length target.old) × (length y.limbs.now ≡ length target.old) × Room p (length target.old) }
    ensures { (length target.new ≡ length target.old) × Attempts mode p (regular x.entry) (regular y.entry) target.new result }
{
    let top = checks::counted_exponent(x.number.exponent);
    if x.number.negative != y.number.negative {
        return subtract_any(mode, x, y, top, p, target);
    }
    if bounds::is_high(top) {
        return None;
    }
    let carry = fused::sum(target, x.limbs, y.limbs);
    Some(round_whole(mode, x.number.negative, carry, 0, top, p, target))
}
