// A sum of two regular numbers in any order, read at once: which of them comes first, and in which way it is read.
#![tactic(auto)]

ghost use Rattle.std.specs.Prelude.{◌≡◌, true, false, not, cond, ◌+◌, ◌*◌, ◌^◌, ◌≤◌, ◌<◌, length};
ghost use Rattle.numbers.specs.Operand.{WellFormed};
ghost use Rattle.checks.specs.Number.{operand_of};
ghost use Rattle.checks.specs.Held.{regular};
ghost use Rattle.checks.specs.Room.{Room};
ghost use Rattle.wide.specs.Filling.{FillsBy};
ghost use Rattle.wide.specs.Attempted.{Attempts, AttemptsInOrder};
ghost use Rattle.deep.specs.Deep.{Deep};

use checks::{Number, Regular, copied};
use choice::{either, is_level, is_second_larger};
use place::by_fields;
use rounding::{AsMode, Mode};
use settle::Pair;
use wide::{Attempt, Filled, Operands};

// Whether two numbers have one exponent, and each as many limbs as the target.
fn is_aligned(x: Number, m: usize, y: Number, k: usize, n: usize) -> bool
    ensures { result ≡ true → (x.exponent ≡ y.exponent) × (m ≡ n) × (k ≡ n) }
{
    (x.exponent == y.exponent) & (m == n) & (k == n)
}

// Whether the first operand has as many limbs as the target, and the second begins below them and more than a digit below those asked for.
fn is_far(p: u64, pair: Pair, first: usize, n: usize) -> bool
    requires { (p + 1 < 2 ^ 64) × (64 * n < 2 ^ 64) }
    ensures { result ≡ true → (first ≡ n) × (64 * n ≤ pair.gap) × (p + 1 < pair.gap) }
{
    (first == n) & (64 * (n as u64) <= pair.gap) & (p + 1 < pair.gap)
}

// Whether both have as many limbs as the target, and the second begins in the first column, but not at its top.
fn is_near(pair: Pair, first: usize, second: usize, n: usize) -> bool
    ensures { result ≡ true → (first ≡ n) × (second ≡ n) × (0 < pair.gap) × (pair.gap < 64) }
{
    (first == n) & (second == n) & (0 < pair.gap) & (pair.gap < 64)
}

// Whether two operands have one limb each, and the target three or more.
fn is_short(m: usize, k: usize, n: usize) -> bool
    ensures { result ≡ true → (m ≡ 1) × (k ≡ 1) × (2 < n) }
{
    (m == 1) & (k == 1) & (2 < n)
}

// Whether two operands have two limbs each, and the target one.
fn is_lower(m: usize, k: usize, n: usize) -> bool
    ensures { result ≡ true → (m ≡ 2) × (k ≡ 2) × (n ≡ 1) }
{
    (m == 2) & (k == 2) & (n == 1)
}

// Whether one limb holds the digits asked for with two to spare, and both operands begin in the first column and have more than a digit below it.
fn is_deep(p: u64, pair: Pair) -> bool
    requires { pair.gap + pair.second < 2 ^ 64 }
    ensures { result ≡ true → (p ≤ 62) × Deep pair }
{
    (p <= 62) & (pair.gap < 64) & (65 < pair.first) & (65 < pair.gap + pair.second)
}

// Fills the target, in the way that may fix the answer.
fn fill(mode: Mode, p: u64, order: &Operands, target: &mut [u64]) -> Option<Filled>
    requires { Room p (length target.old) }
    ensures { (length target.new ≡ length target.old) × FillsBy mode order.now.negative p order.now.pair order.now.first.now order.now.second.now target.new result }
{
    if is_deep(p, order.pair) {
        if let Some(filled) = deep::fill(mode, p, order, target) {
            return Some(filled);
        }
    }
    wide::fill(p, order, target)
}

// Rounds what fills the target.
fn round_filled(mode: Mode, p: u64, order: &Operands, target: &mut [u64]) -> Option<Attempt>
    requires { Room p (length target.old) }
    ensures { (length target.new ≡ length target.old) × AttemptsInOrder mode p order.now.negative order.now.pair order.now.swapped order.now.first.now order.now.second.now target.new result }
{
    let filled = fill(mode, p, order, target)?;
    let placed = wide::round(mode, p, order, filled, target);
    let upper = reports::used(filled.depth, 0, order.first.len());
    let lower = reports::used(filled.depth, order.pair.gap, order.second.len());
    Some(Attempt {
        negative: order.negative,
        placed: by_fields(placed),
        depth: filled.depth,
        first: either(order.swapped, upper, lower),
        second: either(order.swapped, lower, upper),
    })
}

// Reads two operands in order, in the shortest of the ways that fit them.
fn read_in_order(mode: Mode, p: u64, order: &Operands, target: &mut [u64]) -> Option<Attempt>
    requires { Room p (length target.old) }
    ensures { (length target.new ≡ length target.old) × AttemptsInOrder mode p order.now.negative order.now.pair order.now.swapped order.now.first.now order.now.second.now target.new result }
{
    let first = order.first.len();
    let second = order.second.len();
    let n = target.len();
    if is_near(order.pair, first, second, n) {
        return near::attempt(mode, p, order, target);
    }
    if is_far(p, order.pair, first, n) {
        return far::attempt(mode, p, order, target);
    }
    if is_short(first, second, n) {
        return short::attempt(mode, p, order, target);
    }
    round_filled(mode, p, order, target)
}

// Adds two regular numbers, where the columns that fill the target, or one more, fix the answer. Where their top limbs do not tell which is larger it is left open, but for two limbs each and a target of one.
fn add_regular(mode: Mode, p: u64, x: Regular, y: Regular, target: &mut [u64]) -> Option<Attempt>
    requires { Room p (length target.old) }
    ensures { (length target.new ≡ length target.old) × Attempts mode p (regular x.entry) (regular y.entry) target.new result }
{
    let m = x.number;
    let n = y.number;
    let u = x.limbs[x.limbs.len() - 1];
    let v = y.limbs[y.limbs.len() - 1];
    let a = checks::counted_exponent(m.exponent);
    let b = checks::counted_exponent(n.exponent);
    let same = m.negative == n.negative;
    if is_level(same, a, b, u, v) {
        if is_lower(x.limbs.len(), y.limbs.len(), target.len()) {
            return Some(aligned::subtract_lower(
                mode, m.negative, p, a, x.limbs[0], y.limbs[0], target,
            ));
        }
        return None;
    }
    let swapped = is_second_larger(a, b, u, v);
    let top = either(swapped, a, b);
    let pair = Pair {
        same,
        first: either(swapped, m.precision, n.precision),
        second: either(swapped, n.precision, m.precision),
        gap: top - either(swapped, b, a),
        top,
    };
    read_in_order(
        mode,
        p,
        &Operands {
            negative: either(swapped, m.negative, n.negative),
            swapped,
            pair,
            first: either(swapped, x.limbs, y.limbs),
            second: either(swapped, y.limbs, x.limbs),
        },
        target,
    )
}

// Adds two numbers, where the columns that fill the target, or one more, fix the answer. Where one is zero it is left open.
pub fn attempt<'a, M: AsMode>(
    mode: M,
    x: Number,
    xl: &'a [u64],
    y: Number,
    yl: &'a [u64],
    p: u64,
    target: &mut [u64],
) -> Option<Attempt>
    requires { WellFormed (operand_of x xl.now) × WellFormed (operand_of y yl.now) × Room p (length target.old) }
    ensures { (length target.new ≡ length target.old) × Attempts (M.mode_in mode) p (operand_of x xl.now) (operand_of y yl.now) target.new result }
{
    attempt_under(mode.as_mode(), x, xl, y, yl, p, target)
}

// The same under a mode.
fn attempt_under<'a>(
    mode: Mode,
    x: Number,
    xl: &'a [u64],
    y: Number,
    yl: &'a [u64],
    p: u64,
    target: &mut [u64],
) -> Option<Attempt>
    requires { WellFormed (operand_of x xl.now) × WellFormed (operand_of y yl.now) × Room p (length target.old) }
    ensures { (length target.new ≡ length target.old) × Attempts mode p (operand_of x xl.now) (operand_of y yl.now) target.new result }
{
    if checks::is_zero(x) {
        return None;
    }
    if checks::is_zero(y) {
        return None;
    }
    let first = Regular {
        number: copied(x),
        limbs: xl,
    };
    let second = Regular {
        number: copied(y),
        limbs: yl,
    };
    if is_aligned(x, xl.len(), y, yl.len(), target.len()) {
        return aligned::attempt(mode, first, second, p, target);
    }
    add_regular(mode, p, first, second, target)
}
