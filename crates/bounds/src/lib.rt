// Are the least and the greatest sum refused alike, as too large or too small?
#![tactic(auto)]

ghost use Rattle.std.specs.Prelude.{◌≡◌, false, cond, ℕ, suc, ◌+◌, ◌-◌, ◌*◌, ◌/◌, ◌^◌, ◌≤◌, ltb, eqb};
ghost use Rattle.std.specs.Float.Ieee.{size};
ghost use Rattle.limb.specs.Carry.{bit};
ghost use Rattle.numbers.specs.Limits.{least_exponent, most_exponent};
ghost use Rattle.decide.specs.Class.{enough};
ghost use Rattle.decide.specs.Range.{carry, short_least, short_most, large?, small?};
ghost use Rattle.remnant.specs.Rest.{RestOf};
ghost use Rattle.settle.specs.Ways.{theory_way};
ghost use Rattle.settle.specs.Rows.{Modest};
ghost use Rattle.bounds.specs.Ends.{is_far, is_next, open_digits, Ones};

use lean::{enough, leans};
use numbers::{LEAST_EXPONENT, MOST_EXPONENT};
use remnant::Rest;
use settle::{Pair, Way};
use std::cmp::Ordering;

// One digit more, or none.
#[tactic(auto, unfolding(limb::specs::Carry::bit))]
fn digit(more: bool) -> u64
    ensures { result ≡ bit more }
{
    more as u64
}

// Whether the selected number is longer than D by a digit, D and perhaps more being rounded; `ones`: the first p digits of D are all 1.
fn carries(way: Way, x: Rest, more: bool, ones: bool) -> bool
    ensures { (p D : ℕ) → RestOf p D x → p ≤ size D → ones ≡ eqb (suc (D / 2 ^ (size D - p))) (2 ^ p) → bit result ≡ carry (theory_way way) p D more }
{
    match leans(way, x, more) {
        Ordering::Greater => ones,
        Ordering::Less => false,
        Ordering::Equal => false,
    }
}

// The same where D has too few digits, and the least lies half a unit above it or, unless `half`, less.
fn short_least(way: Way, digits: u64, ones: bool, p: u64, half: bool) -> bool
    ensures { (D : ℕ) → digits ≡ size D → Ones p D ones → enough (theory_way way) p D ≡ false → bit result ≡ short_least (theory_way way) p D half }
{
    match way {
        Way::Near => half & (digits == p) & ones,
        Way::Under => false,
        Way::Over => false,
    }
}

// And of the greatest, which has D and then `tail` ones: other tests than those of the least.
fn short_most(way: Way, digits: u64, ones: bool, p: u64, tail: u64) -> bool
    requires { (digits ≤ 2 ^ 30) × (tail ≤ 2 ^ 20) }
    ensures { (D : ℕ) → digits ≡ size D → Ones p D ones → enough (theory_way way) p D ≡ false → bit result ≡ short_most (theory_way way) p D tail }
{
    match way {
        Way::Near => (p < digits + tail) & ones,
        Way::Under => false,
        Way::Over => (p < digits + tail) & ones,
    }
}

// Whether D and perhaps more, rounded, has a digit more than D; `short` says so where D has too few digits.
fn grows(way: Way, x: Rest, ones: bool, p: u64, more: bool, short: bool) -> bool
    ensures { (D s : ℕ) → RestOf p D x → Ones p D ones → (enough (theory_way way) p D ≡ false → bit short ≡ s) → bit result ≡ cond (enough (theory_way way) p D) (carry (theory_way way) p D more) s }
{
    if enough(way, x) {
        carries(way, x, more, ones)
    } else {
        short
    }
}

// Whether the exponent is so near the top that a sum can be too large.
pub fn is_high(top: u64) -> bool
    requires { top ≤ 2 ^ 42 }
    ensures { result ≡ ltb most_exponent (top + 2) }
{
    MOST_EXPONENT < top + 2
}

// Refusal 6 for certain: the least sum is too large. D has `digits` digits; `ones`: its first p, or all where there are fewer, are 1.
pub fn too_large(way: Way, x: Rest, digits: u64, ones: bool, p: u64, pair: Pair, k: u64) -> bool
    requires { Modest pair k × (digits ≤ 2 ^ 30) }
    ensures { (D : ℕ) → RestOf p D x → digits ≡ size D → Ones p D ones → result ≡ large? (theory_way way) p (pair.top - 64 * k) D (is_far pair k) (is_next pair k) }
{
    let c = 64 * k;
    let far = (pair.second != 0) & (c <= pair.gap);
    let short = short_least(way, digits, ones, p, far & (pair.gap == c));
    let grows = grows(way, x, ones, p, far, short);
    MOST_EXPONENT + c < digits + digit(grows) + pair.top
}

// Whether the exponent is so near the bottom that a difference can be too small after k columns.
pub fn is_low(top: u64, k: u64) -> bool
    requires { (top ≤ 2 ^ 42) × (k ≤ 2 ^ 20) }
    ensures { result ≡ ltb (top + 1) (least_exponent + 64 * k) }
{
    top + 1 < LEAST_EXPONENT + 64 * k
}

// The digits of the first operand below the columns read.
fn unread_digits(first: u64, c: u64) -> u64
    ensures { result ≡ first - c }
{
    if c < first {
        return first - c;
    }
    0
}

// Refusal 7 for certain: the greatest difference is too small. The first operand is the larger.
pub fn too_small(way: Way, x: Rest, digits: u64, ones: bool, p: u64, pair: Pair, k: u64) -> bool
    requires { Modest pair k × (digits ≤ 2 ^ 30) }
    ensures { (D : ℕ) → RestOf p D x → digits ≡ size D → Ones p D ones → result ≡ small? (theory_way way) p (pair.top - 64 * k) D (ltb 0 (open_digits pair k)) (open_digits pair k) }
{
    let c = 64 * k;
    let tail = unread_digits(pair.first, c);
    let short = short_most(way, digits, ones, p, tail);
    let grows = grows(way, x, ones, p, 0 < tail, short);
    digits + digit(grows) + pair.top < LEAST_EXPONENT + c
}
