// Numbers as a caller hands them over, and tests 2 to 5, each alone.
#![tactic(auto)]

ghost use Rattle.std.specs.Prelude.{◌≡◌, [], ◌∷◌};
ghost use Rattle.numbers.specs.Limits.{counted, limbs_for};
ghost use Rattle.checks.specs.Number.{is_zero_kind, operand_of, turned_number, exponent_of, fetched};
ghost use Rattle.checks.specs.Refusal.{rule_number, place_number};
ghost use Rattle.checks.specs.Check.{test, first_refusal, precision_holds, length_holds, exponent_holds, top_bit_holds, spare_bits_hold, form_holds};

pub use operand::{Formed, Regular, Target};

mod operand; // operand.rt: operands and targets that have passed their tests

#[derive(Clone, Copy, Debug, PartialEq, Eq)]
pub enum Kind {
    Regular,
    Zero,
}

// A number without its limbs, which travel beside it as a lent slice, lowest first.
#[derive(Clone, Copy, Debug, PartialEq, Eq)]
pub struct Number {
    pub negative: bool,
    pub kind: Kind,
    pub precision: u64,
    pub exponent: i32,
}

// What a call is refused for, each with its number, in the order of the numbers.
#[derive(Clone, Copy, Debug, PartialEq, Eq)]
pub enum Rule {
    Mode = 1,
    Precision = 2,
    Limbs = 3,
    Exponent = 4,
    Form = 5,
    TooLarge = 6,
    TooSmall = 7,
    LineSize = 8,
    LineByte = 9,
    LineKind = 10,
    Operation = 11,
    DoubleTooLarge = 12,
    DoubleTooSmall = 13,
    NoNumber = 14,
}

// Where the fault lies, each with its number: in the call itself, or in one of what it was handed.
#[derive(Clone, Copy, Debug, PartialEq, Eq)]
pub enum Place {
    Call = 0,
    First = 1,
    Second = 2,
    Target = 3,
}

// The first rule that a call breaks, and its first place.
#[derive(Clone, Copy, Debug, PartialEq, Eq)]
pub struct Refusal {
    pub rule: Rule,
    pub place: Place,
}

impl Rule {
    #[tactic(auto, unfolding(crate::specs::Refusal::rule_number))]
    pub fn number(self) -> u8
        ensures { result ≡ rule_number self }
    {
        self as u8
    }
}

impl Place {
    #[tactic(auto, unfolding(crate::specs::Refusal::place_number))]
    pub fn number(self) -> u8
        ensures { result ≡ place_number self }
    {
        self as u8
    }
}

// The refusal of that rule and place, unless the test holds.
#[tactic(auto, unfolding(crate::specs::Check::first_refusal, crate::specs::Check::accepted))]
pub fn refuse_unless(holds: bool, rule: Rule, place: Place) -> Result<(), Refusal>
    ensures { result ≡ first_refusal (test holds rule place ∷ []) }
{
    if holds {
        Ok(())
    } else {
        Err(Refusal { rule, place })
    }
}

pub const MOST_MODE: u8 = 3;

pub const LEAST_PRECISION: u64 = 2;

pub const MOST_PRECISION: u64 = 4096;

// 2^63: the first digit of a limb.
pub const FIRST_DIGIT: u64 = 9223372036854775808;

// Exponents are counted from -2^40: what 0, the least and the most exponent of a regular number are counted as.
pub const BIAS: u64 = 1099511627776;

pub const LEAST_EXPONENT: u64 = 1098437885953;

pub const MOST_EXPONENT: u64 = 1100585369599;

// The number with the other sign; takes anything.
pub fn turn_sign(x: Number) -> Number
    ensures { result ≡ turned_number x }
{
    let kind = x.kind;
    Number {
        negative: !x.negative,
        kind: kind,
        precision: x.precision,
        exponent: x.exponent,
    }
}

// Whether the number is a zero.
pub fn is_zero(x: Number) -> bool
    ensures { result ≡ is_zero_kind x.kind }
{
    let kind = x.kind;
    match kind {
        Kind::Zero => true,
        Kind::Regular => false,
    }
}

// An exponent, counted.
pub fn counted_exponent(e: i32) -> u64
    ensures { result ≡ counted e }
{
    let wide = e as i64;
    let above = wide + 1099511627776;
    above as u64
}

// The exponent that is counted as c; 0 where no i32 is, below 2^40 - 2^31 and from 2^40 + 2^31 on.
pub fn exponent_of(c: u64) -> i32
    ensures { result ≡ exponent_of c }
{
    if c < 1097364144128 {
        return 0;
    }
    if 1101659111423 < c {
        return 0;
    }
    let wide = c as i64;
    let e = wide - 1099511627776;
    e as i32
}

// How many limbs hold p digits.
pub fn limbs_for(p: u64) -> u64
    ensures { result ≡ limbs_for p }
{
    let whole = p / 64;
    if p % 64 == 0 {
        return whole;
    }
    whole + 1
}

// A limb of a number of that precision: the one place where a limb is fetched. Past the end stands 0.
pub fn fetch(limbs: &[u64], precision: u64, index: usize) -> u64
    ensures { result ≡ fetched limbs.now precision index }
{
    if index < limbs.len() {
        return limbs[index];
    }
    0
}

// 2: the precision is in range.
pub fn precision_holds(p: u64) -> bool
    ensures { result ≡ precision_holds p }
{
    (LEAST_PRECISION <= p) & (p <= MOST_PRECISION)
}

// 3: n limbs are what p digits take.
pub fn length_holds(p: u64, n: usize) -> bool
    ensures { result ≡ length_holds p n }
{
    n as u64 == limbs_for(p)
}

// 4: a regular exponent is in range, a zero's is 0.
pub fn exponent_holds(x: Number) -> bool
    ensures { result ≡ exponent_holds (operand_of x []) }
{
    let e = counted_exponent(x.exponent);
    if is_zero(x) {
        return e == BIAS;
    }
    (LEAST_EXPONENT <= e) & (e <= MOST_EXPONENT)
}

// 5: the top bit of the top limb is 1.
fn top_bit_holds(l: &[u64]) -> bool
    ensures { result ≡ top_bit_holds l.now }
{
    let n = l.len();
    if n == 0 {
        return false;
    }
    FIRST_DIGIT <= l[n - 1]
}

// 5: the bits of a lowest limb below the last of p digits are 0.
pub fn low_holds(p: u64, low: u64) -> bool
    ensures { result ≡ spare_bits_hold p (low ∷ []) }
{
    let spare = (64 - p % 64) % 64;
    spare <= (u64::trailing_zeros(low) as u64)
}

// 5: the spare bits of the lowest limb are 0.
fn spare_bits_hold(p: u64, l: &[u64]) -> bool
    ensures { result ≡ spare_bits_hold p l.now }
{
    if l.len() == 0 {
        return true;
    }
    low_holds(p, l[0])
}

// 5: a regular number's top bit is 1 and its spare bits are 0; a zero's limbs are never looked at.
pub fn form_holds(x: Number, l: &[u64]) -> bool
    ensures { result ≡ form_holds (operand_of x l.now) }
{
    if is_zero(x) {
        return true;
    }
    top_bit_holds(l) & spare_bits_hold(x.precision, l)
}

// The same number, in a place of its own: what is lent to a slower way alone need not stand in memory on the quick one.
pub fn copied(x: Number) -> Number
    ensures { result ≡ x }
{
    let kind = x.kind;
    Number {
        negative: x.negative,
        kind: kind,
        precision: x.precision,
        exponent: x.exponent,
    }
}
