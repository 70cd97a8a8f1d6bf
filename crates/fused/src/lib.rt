// The sum or the difference of two runs of limbs, in one walk into a third.
//
//     a          a[n-1] ..  a[1]   a[0]
//     b          b[n-1] ..  b[1]   b[0]      or b moved down by less than a limb
//     target     t[n-1] ..  t[1]   t[0]
//
// Each function asks that its runs are of one length: a struct of the three slices would be made for one call and taken apart in it.
#![tactic(auto)]

ghost use Rattle.std.specs.Prelude.{◌≡◌, false, ◌+◌, ◌*◌, ◌/◌, ◌%◌, ◌^◌, ◌<◌, length};
ghost use Rattle.limb.specs.Value.{value_of};
ghost use Rattle.fused.specs.Fused.{LimbFused, FusedOf, SumOf, DifferenceOf};

use limb::{Adding, Step, Taking};
use shifts::moved;

// Limb i of the target, from a limb of each run and the carry of the limbs below. Returns the carry out.
fn set_limb<S: Step>(target: &mut [u64], i: usize, x: u64, y: u64, carry: bool) -> bool
    requires { i < length target.old }
    ensures { LimbFused S.column i x y carry target.old target.new result }
{
    let s = S::limb(x, y, carry);
    target[i] = s.limb;
    s.carry
}

// The walk over two runs. Returns the carry out. Four limbs a turn, written out, are one chain of steps.
fn fuse<S: Step>(target: &mut [u64], a: &[u64], b: &[u64]) -> bool
    requires { (length a.now ≡ length target.old) × (length b.now ≡ length target.old) }
    ensures { FusedOf S.column (value_of a.now) (value_of b.now) false (length target.old) target.new result }
{
    let turns = target.len() / 4;
    let mut carry = false;
    for turn in 0..turns {
        let i = 4 * turn;
        carry = set_limb::<S>(target, i, a[i], b[i], carry);
        carry = set_limb::<S>(target, i + 1, a[i + 1], b[i + 1], carry);
        carry = set_limb::<S>(target, i + 2, a[i + 2], b[i + 2], carry);
        carry = set_limb::<S>(target, i + 3, a[i + 3], b[i + 3], carry);
    }
    for i in 4 * turns..target.len() {
        carry = set_limb::<S>(target, i, a[i], b[i], carry);
    }
    carry
}

// a + b. Returns the carry out.
pub fn sum(target: &mut [u64], a: &[u64], b: &[u64]) -> bool
    requires { (length a.now ≡ length target.old) × (length b.now ≡ length target.old) }
    ensures { SumOf (value_of a.now) (value_of b.now) false (length target.old) target.new result }
{
    fuse::<Adding>(target, a, b)
}

// a - b. Returns the borrow out.
pub fn difference(target: &mut [u64], a: &[u64], b: &[u64]) -> bool
    requires { (length a.now ≡ length target.old) × (length b.now ≡ length target.old) }
    ensures { DifferenceOf (value_of a.now) (value_of b.now) false (length target.old) target.new result }
{
    fuse::<Taking>(target, a, b)
}

// The walk over a and b / 2^gap with a carry in. Returns the carry out.
fn fuse_moved<S: Step>(target: &mut [u64], a: &[u64], b: &[u64], gap: u64, carry: bool) -> bool
    requires { (length a.now ≡ length target.old) × (length b.now ≡ length target.old) × (0 < length target.old) × (0 < gap) × (gap < 64) }
    ensures { FusedOf S.column (value_of a.now) (value_of b.now / 2 ^ gap) carry (length target.old) target.new result }
{
    let last = target.len() - 1;
    let mut low = b[0];
    let mut up = carry;
    for i in 0..last {
        let high = b[i + 1];
        up = set_limb::<S>(target, i, a[i], moved(low, high, gap), up);
        low = high;
    }
    set_limb::<S>(target, last, a[last], low >> gap, up)
}

// a + b / 2^gap. Returns the carry out.
pub fn sum_moved(target: &mut [u64], a: &[u64], b: &[u64], gap: u64) -> bool
    requires { (length a.now ≡ length target.old) × (length b.now ≡ length target.old) × (0 < length target.old) × (0 < gap) × (gap < 64) }
    ensures { SumOf (value_of a.now) (value_of b.now / 2 ^ gap) false (length target.old) target.new result }
{
    fuse_moved::<Adding>(target, a, b, gap, false)
}

// a - b / 2^gap - borrow. Returns the borrow out.
pub fn difference_moved(target: &mut [u64], a: &[u64], b: &[u64], gap: u64, borrow: bool) -> bool
    requires { (length a.now ≡ length target.old) × (length b.now ≡ length target.old) × (0 < length target.old) × (0 < gap) × (gap < 64) }
    ensures { DifferenceOf (value_of a.now) (value_of b.now / 2 ^ gap) borrow (length target.old) target.new result }
{
    fuse_moved::<Taking>(target, a, b, gap, borrow)
}
