// The columns that fill the target, read at once: fewer cannot fix the answer where no refusal and no hole is near.
ghost use Rattle.std.specs.Prelude.{◌≡◌, true, false, ◌+◌, ◌-◌, ◌*◌, ◌^◌, ◌≤◌, ◌<◌, length};
ghost use Rattle.numbers.specs.Operand.{Operand};
ghost use Rattle.walk.specs.Window.{head_of};
ghost use Rattle.leap.specs.Leap.{Leapt};
ghost use Rattle.bridge.specs.Verdict.{pair_of, read_sum};
ghost use Rattle.descent.specs.Course.{Course, Inland, Prompt, Sighted};

use settle::Pair;
use walk::Window;

// Whether column `last` ends in the lowest limb of the second operand or above; there may be none.
fn reaches(pair: Pair, second: usize, last: u64) -> bool
    requires { (last ≤ 2 ^ 21) × (pair.gap ≤ 2 ^ 42) }
    ensures { result ≡ true → 0 < pair.second → (second ≤ 2 ^ 20) × (64 * last ≤ 64 * second + pair.gap) }
{
    if pair.second == 0 {
        return true;
    }
    if 1048576 < second {
        return false;
    }
    64 * (last + 1) <= 64 * (second as u64) + pair.gap
}

// Whether no refusal is near after so many columns.
pub fn is_inland(pair: Pair, columns: u64) -> bool
    requires { (pair.top ≤ 2 ^ 42) × (columns ≤ 2 ^ 20) }
    ensures { result ≡ true → Inland pair columns }
{
    if pair.same {
        !bounds::is_high(pair.top)
    } else {
        !bounds::is_low(pair.top, columns)
    }
}

// Whether the columns that fill n limbs, from one on, end within both operands, and no refusal is near.
pub fn is_prompt(pair: Pair, first: usize, second: usize, from: u64, n: usize) -> bool
    requires { Sighted pair first from n }
    ensures { result ≡ true → Prompt pair first second from n }
{
    let last = from + (n as u64) - 1;
    if first as u64 <= last {
        return false;
    }
    if !reaches(pair, second, last) {
        return false;
    }
    is_inland(pair, last)
}

// Fills the target with the columns from one on.
pub fn fill(pair: Pair, first: &[u64], second: &[u64], from: u64, target: &mut [u64]) -> Window
    requires { Sighted pair (length first.now) from (length target.old) × Prompt pair (length first.now) (length second.now) from (length target.old) }
    ensures { (x y : Operand) → Course x y from → pair ≡ pair_of x y → first.now ≡ x.limbs → (y.is_zero ≡ false → second.now ≡ y.limbs) → Leapt from (from + length target.old) (read_sum x y (from + length target.old)) target.old target.new result }
{
    let last = from + (target.len() as u64) - 1;
    let m = pair.first;
    let n = pair.second;
    let gap = pair.gap;
    if n == 0 {
        return leap::leap_single(target, first, m, last);
    }
    if pair.same {
        return leap::leap_sum(target, first, m, second, n, gap, last);
    }
    leap::leap_difference(target, first, m, second, n, gap, from, last)
}

// Whether a borrow from below leaves something in the top limb.
pub fn has_lead(w: Window, target: &[u64]) -> bool
    requires { 0 < length target.now }
    ensures { result ≡ true → w.filled ≡ length target.now → 2 ^ (64 * (length target.now - 1)) < head_of w target.now }
{
    if w.carry {
        return true;
    }
    1 < target[target.len() - 1]
}
