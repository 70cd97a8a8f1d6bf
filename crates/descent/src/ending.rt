// Where the walk of a sum ended, what it holds is rounded, or refused.
ghost use Rattle.std.specs.Prelude.{◌≡◌, true, not, ℕ, ◌+◌, ◌-◌, ◌*◌, ◌^◌, ◌≤◌, ◌<◌, eqb, length, replicate};
ghost use Rattle.limb.specs.Carry.{bit};
ghost use Rattle.numbers.specs.Limits.{most_exponent};
ghost use Rattle.numbers.specs.Operand.{Operand};
ghost use Rattle.rounding.specs.Mode.{way};
ghost use Rattle.rounding.specs.Answer.{Answer, rounded};
ghost use Rattle.rounding.specs.Sum.{add};
ghost use Rattle.decide.specs.Class.{enough};
ghost use Rattle.place.specs.Rounded.{refused_by};
ghost use Rattle.kept.specs.Walk.{whole};
ghost use Rattle.walk.specs.Window.{TailIs, Shows};
ghost use Rattle.bridge.specs.Verdict.{pair_of, hole_way};
ghost use Rattle.checks.specs.Room.{Room};
ghost use Rattle.descent.specs.Course.{Course, Stopped};
ghost use Rattle.descent.specs.Finishing.{Cleared, Ending, Left, HoleSays};

use crate::going::{Verdict, Walked};
use place::Placed;
use rounding::{AsMode, Mode};
use settle::Pair;
use walk::{Tail, Window};

// Sets the lowest n limbs to 0.
fn clear_low(target: &mut [u64], n: usize)
    requires { n ≤ length target.old }
    ensures { Cleared n target.old target.new }
{
    let mut i = 0;
    while i < n {
        target[i] = 0;
        i += 1;
    }
}

// Whether something stands below the guard.
pub fn holds_more(tail: Tail) -> bool
    ensures { (t q : ℕ) → TailIs tail t q → result ≡ not (eqb q 0) }
{
    match tail {
        Tail::Empty => false,
        Tail::Zeros => false,
        Tail::Ones => true,
        Tail::Mixed => true,
    }
}

// Rounds the sum D, and more if so said.
fn fixed(
    mode: Mode,
    negative: bool,
    p: u64,
    top: u64,
    w: Window,
    more: bool,
    target: &mut [u64],
) -> Placed
    requires { Ending p top w target.old }
    ensures { (k D : ℕ) → Shows w target.old k D → 0 < D → 64 * k < top → (more ≡ true → enough (way mode negative) p D ≡ true) → Left p (rounded (way mode negative) p (top - 64 * k - 1) negative (2 * D + bit more)) target.new result }
{
    let n = target.len();
    clear_low(target, n - w.filled);
    let unit = top - 64 * (w.skipped + n as u64 + 1);
    let tail = w.tail;
    let deep = holds_more(tail);
    let guard = w.guard.unwrap_or(0);
    place::round_run(negative, w.carry, target, guard, more | deep, unit, p, mode)
}

// The mode by which a hole is rounded: from a tie, to the side on which the second operand lies.
fn hole_mode(mode: Mode, negative: bool, p: u64, pair: Pair) -> Mode
    ensures { way result negative ≡ hole_way (way mode negative) p pair }
{
    if (mode != Mode::Nearest) | (p != pair.gap) {
        return mode;
    }
    match (pair.same, negative) {
        (false, _) => Mode::Zeroward,
        (true, false) => Mode::Upward,
        (true, true) => Mode::Downward,
    }
}

// Rounds what stands in the target, less a little.
fn less(
    mode: Mode,
    negative: bool,
    p: u64,
    unit: u64,
    carry: bool,
    guard: u64,
    target: &mut [u64],
) -> Placed
    requires { Room p (length target.old) × (0 < unit) × (unit ≤ 2 * most_exponent) }
    ensures { 2 ^ (64 * length target.old) < whole carry target.old guard → Left p (rounded (way mode negative) p (unit - 1) negative (2 * whole carry target.old guard - 1)) target.new result }
{
    if guard != 0 {
        return place::round_run(negative, carry, target, guard - 1, true, unit, p, mode);
    }
    let borrow = walk::change_from(target, 0, walk::Change::Fall);
    place::round_run(
        negative,
        carry & !borrow,
        target,
        18446744073709551615,
        true,
        unit,
        p,
        mode,
    )
}

// Rounds the sum D in a hole, with a little more or a little less.
fn hole(mode: Mode, negative: bool, p: u64, pair: Pair, w: Window, target: &mut [u64]) -> Placed
    requires { Ending p pair.top w target.old }
    ensures { (a : Answer) (k D : ℕ) → Shows w target.old k D → 0 < D → 64 * k < pair.top → HoleSays (way mode negative) p pair negative k D a → Left p a target.new result }
{
    let n = target.len();
    clear_low(target, n - w.filled);
    let unit = pair.top - 64 * (w.skipped + n as u64 + 1);
    let by = hole_mode(mode, negative, p, pair);
    let tail = w.tail;
    let deep = holds_more(tail);
    let guard = w.guard.unwrap_or(0);
    if pair.same | deep {
        return place::round_run(negative, w.carry, target, guard, true, unit, p, by);
    }
    less(by, negative, p, unit, w.carry, guard, target)
}

// A refusal: the target is cleared.
fn refuse(rule: u8, target: &mut [u64]) -> Placed
    ensures value { result ≡ refused_by rule }
    ensures target_after { target.new ≡ replicate (length target.old) 0 }
{
    parts::clear(target);
    Placed {
        rule: rule,
        exponent: 0,
        ternary: 0,
    }
}

// Rounds where the walk ended.
pub fn finish<M: AsMode>(
    mode: M,
    negative: bool,
    p: u64,
    pair: Pair,
    walked: Walked,
    target: &mut [u64],
) -> Placed
    requires { Ending p pair.top walked.window target.old }
    ensures { (x y : Operand) (from : ℕ) → Course x y from → pair ≡ pair_of x y → negative ≡ x.negative → Stopped (M.mode_in mode) p x y walked target.old → Left p (add (M.mode_in mode) p x y) target.new result }
{
    finish_under(mode.as_mode(), negative, p, pair, walked, target)
}

// The same under a mode.
fn finish_under(
    mode: Mode,
    negative: bool,
    p: u64,
    pair: Pair,
    walked: Walked,
    target: &mut [u64],
) -> Placed
    requires { Ending p pair.top walked.window target.old }
    ensures { (x y : Operand) (from : ℕ) → Course x y from → pair ≡ pair_of x y → negative ≡ x.negative → Stopped mode p x y walked target.old → Left p (add mode p x y) target.new result }
{
    let w = walked.window;
    let verdict = walked.verdict;
    match verdict {
        Verdict::Open => refuse(0, target),
        Verdict::Fixed(more) => fixed(mode, negative, p, pair.top, w, more, target),
        Verdict::InHole => hole(mode, negative, p, pair, w, target),
        Verdict::Refused(rule) => refuse(rule, target),
    }
}
