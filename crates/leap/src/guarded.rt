// One column more than fill the target: the last as a limb of its own, the guard, and those before it into the target.
//
//     column        0                     k - 1     k
//     target   [ top limb  ..  lowest limb ]
//     guard                                     [ limb ]
//
ghost use Rattle.std.specs.Prelude.{◌≡◌, false, cond, ◌+◌, ◌-◌, ◌≤◌, length};
ghost use Rattle.columns.specs.Column.{read_to};
ghost use Rattle.leap.specs.Leap.{Within};
ghost use Rattle.leap.specs.Runs.{Runs, GuardedBy};

use crate::columns_above;
use limb::{Adding, Step, TakingFrom};

// What stands above and below the target.
#[derive(Clone, Copy)]
pub struct Guarded {
    pub carry: bool,
    pub guard: u64,
}

// The columns to column k and with it, of both operands.
fn columns_on<S: Step>(
    target: &mut [u64],
    first: &[u64],
    m: u64,
    second: &[u64],
    n: u64,
    gap: u64,
    k: u64,
) -> Guarded
    requires { (k ≡ length target.old) × Within k 0 first.now × Within k gap second.now }
    ensures { (length target.new ≡ length target.old) × GuardedBy S.column (read_to (k + 1) 0 first.now) (read_to (k + 1) gap second.now) target.new result }
{
    let a = columns::column(first, m, 0, k);
    let b = columns::column(second, n, gap, k);
    let s = S::limb(b, a, false);
    let carry = columns_above::<S>(target, first, second, gap, k, s.carry);
    Guarded {
        carry: carry,
        guard: s.limb,
    }
}

// The sum of the columns to column k and with it, or the first operand's less the second's.
pub fn guarded_columns(
    same: bool,
    target: &mut [u64],
    first: &[u64],
    m: u64,
    second: &[u64],
    n: u64,
    gap: u64,
    k: u64,
) -> Guarded
    requires { (k ≡ length target.old) × Within k 0 first.now × Within k gap second.now }
    ensures { (length target.new ≡ length target.old) × ((same ≡ false → read_to (k + 1) gap second.now ≤ read_to (k + 1) 0 first.now) → Runs (cond same (read_to (k + 1) 0 first.now + read_to (k + 1) gap second.now) (read_to (k + 1) 0 first.now - read_to (k + 1) gap second.now)) target.new result) }
{
    if same {
        columns_on::<Adding>(target, first, m, second, n, gap, k)
    } else {
        columns_on::<TakingFrom>(target, first, m, second, n, gap, k)
    }
}
