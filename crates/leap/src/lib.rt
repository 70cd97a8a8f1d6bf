// Many columns of a sum or difference at once, into the top limbs of the target: the last of them alone, and then those above it.
//
//     column      from                    k - 1
//     first    [ limb | limb |  ..  | limb ] limb ..      its limbs from the first one that meets the target on
//     second      [ limb | limb |  ..  | limb ] ..        moved down by the gap
//     target   [ top limb          ..            ]
//
// An operand's lowest limb comes into the last column only, where it is fetched.
#![tactic(auto)]

ghost use Rattle.std.specs.Prelude.{◌≡◌, false, ◌+◌, ◌-◌, ◌≤◌, ◌<◌, length};
ghost use Rattle.shifts.specs.LowLimbs.{LowLimbs};
ghost use Rattle.columns.specs.Column.{read_to};
ghost use Rattle.leap.specs.Leap.{Within, Leap, Columns, Leapt, leapt_to};

mod guarded; // guarded.rt: one column more than fill the target

pub use guarded::{Guarded, guarded_columns};
use limb::{Adding, Step, TakingFrom};
use walk::{Tail, Window};

// The columns of an operand before column k, as many as the target has limbs.
fn columns_into(target: &mut [u64], limbs: &[u64], gap: u64, k: u64)
    requires { Within k gap limbs.now }
    ensures { LowLimbs (length target.old) (read_to k gap limbs.now) target.new }
{
    let all = 64 * limbs.len() + gap as usize;
    shifts::shift_down_into(target, limbs, all - 64 * (k as usize));
}

// The columns before column k, of both operands: what a step makes of them with a carry in. Returns the carry out.
fn columns_above<S: Step>(
    target: &mut [u64],
    first: &[u64],
    second: &[u64],
    gap: u64,
    k: u64,
    carry: bool,
) -> bool
    requires { Within k 0 first.now × Within k gap second.now }
    ensures { Columns S.column (read_to k 0 first.now) (read_to k gap second.now) carry (length target.old) target.new result }
{
    columns_into(target, second, gap, k);
    run::step_from::<S>(target, first, first.len() - (k as usize), carry)
}

// The columns to column k and with it.
fn columns_to<S: Step>(
    target: &mut [u64],
    first: &[u64],
    m: u64,
    second: &[u64],
    n: u64,
    gap: u64,
    k: u64,
) -> bool
    requires { (0 < length target.old) × Within k 0 first.now × Within k gap second.now }
    ensures { Columns S.column (read_to (k + 1) 0 first.now) (read_to (k + 1) gap second.now) false (length target.old) target.new result }
{
    let a = columns::column(first, m, 0, k);
    let b = columns::column(second, n, gap, k);
    let s = S::limb(b, a, false);
    target[0] = s.limb;
    columns_above::<S>(&mut target[1..], first, second, gap, k, s.carry)
}

// The columns of one operand to column k and with it.
fn single_columns(target: &mut [u64], first: &[u64], m: u64, k: u64)
    requires { (0 < length target.old) × Within k 0 first.now }
    ensures { LowLimbs (length target.old) (read_to (k + 1) 0 first.now) target.new }
{
    target[0] = columns::column(first, m, 0, k);
    columns_into(&mut target[1..], first, 0, k);
}

// A window of limbs filled and nothing below them.
fn shown(skipped: u64, carry: bool, filled: usize) -> Window
    ensures { result ≡ leapt_to skipped carry filled }
{
    Window {
        skipped: skipped,
        carry: carry,
        filled: filled,
        guard: None,
        tail: Tail::Empty,
    }
}

// The columns of one operand to column k and with it, which fill the target.
pub fn leap_single(target: &mut [u64], first: &[u64], m: u64, k: u64) -> Window
    requires { Leap 0 k (length target.old) × Within k 0 first.now }
    ensures { Leapt 0 (k + 1) (read_to (k + 1) 0 first.now) target.old target.new result }
{
    single_columns(target, first, m, k);
    shown(0, false, target.len())
}

// The columns of a sum.
pub fn leap_sum(
    target: &mut [u64],
    first: &[u64],
    m: u64,
    second: &[u64],
    n: u64,
    gap: u64,
    k: u64,
) -> Window
    requires { Leap 0 k (length target.old) × Within k 0 first.now × Within k gap second.now }
    ensures { Leapt 0 (k + 1) (read_to (k + 1) 0 first.now + read_to (k + 1) gap second.now) target.old target.new result }
{
    let carry = columns_to::<Adding>(target, first, m, second, n, gap, k);
    shown(0, carry, target.len())
}

// The columns of a difference, of which the first `from` are alike: a sum has none that are passed over, and may carry.
pub fn leap_difference(
    target: &mut [u64],
    first: &[u64],
    m: u64,
    second: &[u64],
    n: u64,
    gap: u64,
    from: u64,
    k: u64,
) -> Window
    requires { Leap from k (length target.old) × Within k 0 first.now × Within k gap second.now }
    ensures { read_to from gap second.now ≡ read_to from 0 first.now → read_to (k + 1) gap second.now ≤ read_to (k + 1) 0 first.now → Leapt from (k + 1) (read_to (k + 1) 0 first.now - read_to (k + 1) gap second.now) target.old target.new result }
{
    columns_to::<TakingFrom>(target, first, m, second, n, gap, k);
    shown(from, false, target.len())
}
