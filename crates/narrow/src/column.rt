// The first column of two operands as a run to be rounded, where it fixes the answer.
ghost use Rattle.std.specs.Prelude.{◌≡◌, true, false, ◌+◌, ◌-◌, ◌/◌, ◌%◌, ◌^◌, ◌≤◌, ◌<◌, IfSome};
ghost use Rattle.descent.specs.Course.{Inside};
ghost use Rattle.narrow.specs.Column.{is_whole, is_hole, has_more, Settles, Found};

use crate::ordered::Tops;
use settle::Pair;

// What is to be rounded: a carry, a limb and a guard, and whether something lies below.
#[derive(Clone, Copy)]
pub struct Column {
    pub carry: bool,
    pub limb: u64,
    pub guard: u64,
    pub more: bool,
}

// The digits of a limb that begins gap digits below the top of a column; by a test, since a shift that goes on past 64 takes its count in 32 bits.
fn part(limb: u64, gap: u64) -> u64
    ensures { result ≡ limb / 2 ^ gap }
{
    if gap < 64 { limb >> gap } else { 0 }
}

// Whether one column has all of both operands.
fn is_whole(pair: Pair) -> bool
    requires { pair.gap + pair.second < 2 ^ 64 }
    ensures { result ≡ is_whole pair }
{
    (pair.first <= 64) & (pair.gap + pair.second <= 64)
}

// Whether one column has all of the first operand, and nothing of the second: a hole.
fn is_hole(pair: Pair) -> bool
    ensures { result ≡ is_hole pair }
{
    (pair.first <= 64) & (64 <= pair.gap)
}

// Whether the column of a sum fixes it: the digits below the last one kept lie inside a half, which mostly tells, or the column has all of
// both operands, or there is a hole.
fn is_fixed(pair: Pair, limb: u64, drop: u64) -> bool
    requires { (0 < drop) × (drop ≤ 64) × (pair.gap + pair.second < 2 ^ 64) }
    ensures { result ≡ true → is_whole pair ≡ false → is_hole pair ≡ false → (1 ≤ limb % 2 ^ (drop - 1)) × (limb % 2 ^ (drop - 1) + 1 < 2 ^ (drop - 1)) }
{
    if descent::lies_inside(limb, drop) {
        return true;
    }
    is_whole(pair) | is_hole(pair)
}

// The first operand's limb and the second's part of the column together, where they fix the sum.
fn sum_column(tops: Tops, low: u64) -> Option<Column>
    requires { tops.pair.same ≡ true }
    ensures { IfSome result (λ c. (c.guard ≡ 0) × (c.carry ≡ false → 2 ^ 63 ≤ c.limb) × Settles tops.precision tops.pair (tops.first + low) c) }
{
    let pair = tops.pair;
    let s = limb::add_carry(tops.first, low, false);
    let drop = 64 + (s.carry as u64) - tops.precision;
    if !is_fixed(pair, s.limb, drop) {
        return None;
    }
    Some(Column {
        carry: s.carry,
        limb: s.limb,
        guard: 0,
        more: 64 <= pair.gap,
    })
}

// Whether the greatest difference has something more than what is read.
fn has_more(pair: Pair) -> bool
    requires { pair.gap + pair.second < 2 ^ 64 }
    ensures { result ≡ has_more pair }
{
    let far = 64 <= pair.gap;
    let single = (pair.first == 65) & (pair.gap == 64);
    let both = (64 < pair.first) & (64 < pair.gap + pair.second);
    (far & !single) | (!far & both)
}

// Whether a limb has more than p digits, and those below them lie inside a half.
fn is_inside(p: u64, limb: u64) -> bool
    requires { 0 < limb }
    ensures { result ≡ true → Inside p limb }
{
    let digits = 64 - (u64::leading_zeros(limb) as u64);
    if p < digits {
        descent::lies_inside(limb, digits - p)
    } else {
        false
    }
}

// The first operand's limb less the second's part, outside a hole, where that fixes the difference.
fn difference_column(tops: Tops, low: u64) -> Option<Column>
    requires { (tops.pair.same ≡ false) × (is_hole tops.pair ≡ false) × (low < tops.first) }
    ensures { IfSome result (λ c. (c.carry ≡ false) × Settles tops.precision tops.pair (tops.first - low) c) }
{
    let pair = tops.pair;
    let d = tops.first - low;
    if !(is_whole(pair) | is_inside(tops.precision, d)) {
        return None;
    }
    Some(Column {
        carry: false,
        limb: d,
        guard: 0,
        more: has_more(pair),
    })
}

// The first operand's limb less a little, in a hole.
fn lessened(u: u64) -> Column
    requires { 0 < u }
    ensures { result ≡ record { carry = false; limb = u - 1; guard = 18446744073709551615; more = true } }
{
    Column {
        carry: false,
        limb: u - 1,
        guard: 18446744073709551615,
        more: true,
    }
}

// The first column of unlike signs, where it fixes the answer; the first operand is then seen to be the larger.
pub fn difference_of(tops: Tops) -> Option<Column>
    requires { tops.pair.same ≡ false }
    ensures { IfSome result (λ c. Found tops.precision tops.pair tops.first tops.second c × (c.carry ≡ false)) }
{
    let pair = tops.pair;
    let u = tops.first;
    if is_hole(pair) {
        return Some(lessened(u));
    }
    let low = part(tops.second, pair.gap);
    if u <= low {
        return None;
    }
    difference_column(tops, low)
}

// The first column of one sign, where it fixes the answer.
pub fn sum_of(tops: Tops) -> Option<Column>
    requires { tops.pair.same ≡ true }
    ensures { IfSome result (λ c. Found tops.precision tops.pair tops.first tops.second c × (c.guard ≡ 0) × (c.carry ≡ false → 2 ^ 63 ≤ c.limb)) }
{
    sum_column(tops, part(tops.second, tops.pair.gap))
}
