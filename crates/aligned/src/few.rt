// One or two limbs, by value: a difference of operands that have no more digits than the target keeps.
//
//     first    [ high ][ low  ]     of one limb the low one is 0
//     second   [ high ][ low  ]
//     target   [ digits from the first on ]
//
ghost use Rattle.std.specs.Prelude.{◌≡◌, false, cond, ◌&&◌, ℕ, ◌-◌, ◌*◌, ◌/◌, ◌^◌, ◌≤◌, leb, length};
ghost use Rattle.std.specs.Bool.{beq};
ghost use Rattle.limb.specs.Value.{value_of};
ghost use Rattle.checks.specs.Held.{regular};
ghost use Rattle.twolimbs.specs.Two.{head_in};
ghost use Rattle.checks.specs.Room.{Room};
ghost use Rattle.wide.specs.Attempted.{Attempts};
ghost use Rattle.aligned.specs.Aligned.{Aligned};
ghost use Rattle.aligned.specs.Few.{Few, AbsoluteDifference};

use crate::cancelled;
use checks::Regular;
use choice::either;
use place::Placed;
use rounding::Mode;
use twolimbs::Head;
use wide::Attempt;

// A run of one or two limbs, at the top of two.
fn at_top(l: &[u64]) -> Head
    requires { Few (length l.now) }
    ensures { head_in (2 ^ 64) false result.high result.low ≡ value_of l.now * 2 ^ (64 * (2 - length l.now)) }
{
    if l.len() == 1 {
        return Head {
            carry: false,
            high: l[0],
            low: 0,
        };
    }
    Head {
        carry: false,
        high: l[1],
        low: l[0],
    }
}

// The larger of two runs less the other, and whether the second is the larger.
#[derive(Clone, Copy)]
struct Apart {
    swapped: bool,
    high: u64,
    low: u64,
}

// The difference of two runs of one length.
fn difference(a: &[u64], b: &[u64]) -> Apart
    requires { Few (length a.now) × (length b.now ≡ length a.now) }
    ensures { AbsoluteDifference a.now b.now result }
{
    let x = at_top(a);
    let y = at_top(b);
    let swapped = choice::is_second_larger(x.high, y.high, x.low, y.low);
    let d = twolimbs::difference(either(swapped, x, y), either(swapped, y, x));
    Apart {
        swapped,
        high: d.high,
        low: d.low,
    }
}

// Two limbs at the top of a target of one or two.
fn write(target: &mut [u64], high: u64, low: u64)
    requires { Few (length target.old) }
    ensures { (length target.new ≡ length target.old) × (value_of target.new ≡ head_in (2 ^ 64) false high low / 2 ^ (64 * (2 - length target.old))) }
{
    if target.len() == 1 {
        target[0] = high;
        return;
    }
    target[0] = low;
    target[1] = high;
}

// Whether a target of n limbs has one or two, and keeps all digits of two operands of as many.
pub fn are_few(first: u64, second: u64, p: u64, n: usize) -> bool
    ensures { result ≡ (leb n 2 && (leb first p && leb second p)) }
{
    (n <= 2) & ((first <= p) & (second <= p))
}

// Two operands of unlike signs. Left open where a refusal is near.
pub fn subtract(mode: Mode, x: Regular, y: Regular, top: u64, target: &mut [u64]) -> Option<Attempt>
    requires { Few (length target.old) × Aligned (regular x) (regular y) (length target.old) × (beq x.number.negative y.number.negative ≡ false) × (top ≡ (regular x).exponent) }
    ensures { (length target.new ≡ length target.old) × ((p : ℕ) → Room p (length target.old) → x.entry.number.precision ≤ p → y.entry.number.precision ≤ p → Attempts mode p (regular x.entry) (regular y.entry) target.new result) }
{
    let n = target.len() as u64;
    let a = x.number;
    let b = y.number;
    if bounds::is_low(top, n) {
        return None;
    }
    let d = difference(x.limbs, y.limbs);
    if (d.high == 0) & (d.low == 0) {
        return Some(cancelled(mode, a.negative, b.negative, target));
    }
    let r = twolimbs::normalize(false, d.high, d.low, top);
    write(target, r.high, r.low);
    let placed = Placed {
        rule: 0,
        exponent: r.exponent,
        ternary: 0,
    };
    Some(Attempt {
        negative: a.negative != d.swapped,
        placed,
        depth: n,
        first: n,
        second: n,
    })
}
