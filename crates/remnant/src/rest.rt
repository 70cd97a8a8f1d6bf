// What lies below the last digit that is kept.
ghost use Rattle.std.specs.Prelude.{◌≡◌, true, false, ℕ, ◌+◌, ◌*◌, ◌/◌, ◌%◌, ◌^◌, ◌≤◌, ◌<◌, eqb, length};
ghost use Rattle.walk.specs.Window.{Fits, Shows};
ghost use Rattle.remnant.specs.Rest.{RestOf, Marks, RestAt, LongerRest, TailedRest, high_of};

use crate::digits::digits_of;
use walk::{Tail, Window};

// Of a rest r of so many digits, u being 2 to their number: whether there are p digits above it, whether it is empty, whether r is 0, u - 1, u/2 - 1, u/2 or
// more than u/2, and whether the last digit kept is 1. Eight tests rather than one location: those of the next unit are made of them too.
#[derive(Clone, Copy)]
pub struct Rest {
    pub enough: bool,
    pub empty: bool,
    pub zero: bool,
    pub ones: bool,
    pub almost: bool,
    pub half: bool,
    pub above: bool,
    pub odd: bool,
}

fn too_few() -> Rest
    ensures { result.enough ≡ false }
{
    Rest {
        enough: false,
        empty: true,
        zero: false,
        ones: false,
        almost: false,
        half: false,
        above: false,
        odd: false,
    }
}

fn nothing() -> Rest
    ensures { (result.enough ≡ true) × (result.empty ≡ true) × Marks 0 1 result }
{
    Rest {
        enough: true,
        empty: true,
        zero: true,
        ones: true,
        almost: false,
        half: false,
        above: false,
        odd: false,
    }
}

// The low `bits` bits of a word.
fn low_bits(word: u64, bits: u64) -> u64
    requires { bits ≤ 64 }
    ensures { result ≡ word % 2 ^ bits }
{
    if bits == 64 { word } else { word % (1 << bits) }
}

// Whether the bit above them is 1; `next` is that of the word above.
fn bit_above(word: u64, bits: u64, next: bool) -> bool
    requires { bits ≤ 64 }
    ensures { (h : ℕ) → next ≡ eqb (h % 2) 1 → result ≡ eqb ((h * 2 ^ 64 + word) / 2 ^ bits % 2) 1 }
{
    if bits == 64 {
        next
    } else {
        (word >> bits) % 2 == 1
    }
}

// The low `bits` bits of a word, 1 to 64 of them; `next` holds the digit above where the word has none.
pub fn word_rest(word: u64, bits: u64, next: bool) -> Rest
    requires { (0 < bits) × (bits ≤ 64) }
    ensures { (h : ℕ) → next ≡ eqb (h % 2) 1 → RestAt (h * 2 ^ 64 + word) bits result }
{
    let half = 1 << (bits - 1);
    let r = low_bits(word, bits);
    let odd = bit_above(word, bits, next);
    Rest {
        enough: true,
        empty: false,
        zero: r == 0,
        ones: r == half - 1 + half,
        almost: r == half - 1,
        half: r == half,
        above: r > half,
        odd: odd,
    }
}

// The rest with 64 digits more below it; or with any digits that are zeros where the word is 0, and ones where it is all ones.
fn longer_rest(x: Rest, word: u64) -> Rest
    ensures { LongerRest x word result }
{
    let zeros = word == 0;
    let ones = word == 18446744073709551615;
    Rest {
        enough: true,
        empty: false,
        zero: x.zero & zeros,
        ones: x.ones & ones,
        almost: x.almost & ones,
        half: x.half & zeros,
        above: x.above | (x.half & !zeros),
        odd: x.odd,
    }
}

// The rest with the tail below it.
fn with_tail(x: Rest, tail: Tail) -> Rest
    ensures { TailedRest x tail result }
{
    match tail {
        Tail::Empty => x,
        Tail::Zeros => longer_rest(x, 0),
        Tail::Ones => longer_rest(x, 18446744073709551615),
        Tail::Mixed => longer_rest(x, 1),
    }
}

// The lowest bit of the limb above the lowest, or of the carry.
fn next_bit(w: Window, target: &[u64]) -> bool
    ensures { result ≡ eqb (high_of w target.now % 2) 1 }
{
    if 1 < target.len() {
        target[1] % 2 == 1
    } else {
        w.carry
    }
}

// The rest below p digits. With a guard there are at most 128 digits below, without one at most 64.
pub fn rest_of(w: Window, target: &[u64], p: u64) -> Rest
    requires { Fits w target.now × (length target.now < 2 ^ 50) × (p ≤ 64 * length target.now) × (64 * length target.now < p + 64) }
    ensures { (k D : ℕ) → Shows w target.now k D → RestOf p D result }
{
    let digits = digits_of(w, target);
    if digits < p {
        return too_few();
    }
    if digits == p {
        return nothing();
    }
    let drop = digits - p;
    let tail = w.tail;
    let low = target[0];
    let Some(guard) = w.guard else {
        return word_rest(low, drop, next_bit(w, target));
    };
    if drop <= 64 {
        return with_tail(word_rest(guard, drop, low % 2 == 1), tail);
    }
    let high = word_rest(low, drop - 64, next_bit(w, target));
    with_tail(longer_rest(high, guard), tail)
}
