// What a sum reports.
ghost use Rattle.std.specs.Prelude.{◌≡◌, ◌^◌, ◌≤◌};
ghost use Rattle.numbers.specs.Limits.{least_exponent, most_exponent};
ghost use Rattle.rounding.specs.Answer.{Answer, zero_of};
ghost use Rattle.rounding.specs.Sum.{zero_sign};
ghost use Rattle.checks.specs.Number.{exponent_of};
ghost use Rattle.place.specs.Placed.{placed_of};
ghost use Rattle.reports.specs.Summed.{refused_sum, sum_of};
ghost use Rattle.reports.specs.Exchanged.{exchanged_sum};
ghost use Rattle.reports.specs.Signed.{Signed};
ghost use Rattle.reports.specs.Ranged.{Ranged};
ghost use Rattle.reports.specs.Counts.{used_of};

use checks::{Kind, Number, Place, Refusal, Rule};
use place::Placed;
use rounding::{AsMode, Mode};

// A number that was rounded, and the sign of it less the exact value.
#[derive(Clone, Copy, Debug, PartialEq, Eq)]
pub struct Rounded {
    pub number: Number,
    pub ternary: i8,
}

// The depth, the number or the refusal, and the limbs used of the first operand and of the second.
#[derive(Clone, Copy, Debug, PartialEq, Eq)]
pub struct Sum {
    pub depth: u64,
    pub first: u64,
    pub answer: Result<Rounded, Refusal>,
    pub second: u64,
}

// A refused sum.
pub fn refused(refusal: Refusal, depth: u64, first: u64, second: u64) -> Sum
    ensures { result ≡ refused_sum refusal depth first second }
{
    Sum {
        depth,
        first,
        answer: Err(refusal),
        second,
    }
}

// The sign of a zero sum, the one place that says it: one sign stays, and of two it is plus.
pub fn zero_sign<M: AsMode>(mode: M, a: bool, b: bool) -> bool
    ensures { result ≡ zero_sign (M.mode_in mode) a b }
{
    zero_sign_under(mode.as_mode(), a, b)
}

// The same under a mode.
fn zero_sign_under(mode: Mode, a: bool, b: bool) -> bool
    ensures { result ≡ zero_sign mode a b }
{
    if a == b { a } else { false }
}

// A zero.
pub fn zero(negative: bool, p: u64, depth: u64, first: u64, second: u64) -> Sum
    ensures { result ≡ sum_of (zero_of negative) p depth first second }
{
    let number = Number {
        negative,
        kind: Kind::Zero,
        precision: p,
        exponent: 0,
    };
    Sum {
        depth,
        first,
        answer: Ok(Rounded { number, ternary: 0 }),
        second,
    }
}

// The same sum, in a place of its own: what a slower way left in memory is read field by field, and what a quick one tells need not stand there.
pub fn retold(s: Sum) -> Sum
    ensures { result ≡ s }
{
    match s.answer {
        Ok(rounded) => Sum {
            depth: s.depth,
            first: s.first,
            answer: Ok(Rounded {
                number: checks::copied(rounded.number),
                ternary: rounded.ternary,
            }),
            second: s.second,
        },
        Err(refusal) => refused(refusal, s.depth, s.first, s.second),
    }
}

// The same sum with its operands exchanged.
pub fn exchanged(s: Sum) -> Sum
    ensures { result ≡ exchanged_sum s }
{
    Sum {
        depth: s.depth,
        first: s.second,
        answer: s.answer,
        second: s.first,
    }
}

// The exponent that is counted as c, of a regular number.
fn exponent_in(c: u64) -> i32
    requires { (least_exponent ≤ c) × (c ≤ most_exponent) }
    ensures { result ≡ exponent_of c }
{
    let wide = c as i64;
    let e = wide - 1099511627776;
    e as i32
}

// The answer as it is reported: a refusal, a zero, which has no counted exponent, or a number.
pub fn answered(placed: Placed, negative: bool, p: u64, depth: u64, first: u64, second: u64) -> Sum
    requires { Ranged placed }
    ensures { (a : Answer) → Signed negative a → placed ≡ placed_of a → result ≡ sum_of a p depth first second }
{
    if placed.rule == 6 {
        return refused(
            Refusal {
                rule: Rule::TooLarge,
                place: Place::Target,
            },
            depth,
            first,
            second,
        );
    }
    if placed.rule != 0 {
        return refused(
            Refusal {
                rule: Rule::TooSmall,
                place: Place::Target,
            },
            depth,
            first,
            second,
        );
    }
    if placed.exponent == 0 {
        return zero(negative, p, depth, first, second);
    }
    let number = Number {
        negative,
        kind: Kind::Regular,
        precision: p,
        exponent: exponent_in(placed.exponent),
    };
    Sum {
        depth,
        first,
        answer: Ok(Rounded {
            number,
            ternary: placed.ternary,
        }),
        second,
    }
}

// The limbs used for a depth of k columns, of an operand that begins gap digits below the top.
pub fn used(k: u64, gap: u64, limbs: usize) -> u64
    requires { k ≤ 2 ^ 20 }
    ensures { result ≡ used_of k gap limbs }
{
    let digits = 64 * k;
    if digits <= gap {
        return 0;
    }
    let n = (digits - gap + 63) / 64;
    let most = limbs as u64;
    if n < most { n } else { most }
}
