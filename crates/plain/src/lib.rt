// Numbers and answers as structs of plain fields, laid out as C lays them out, and their making out of the kernel's own. C's header has a kind as a bool,
// a ternary value as -1, 0 or 1, and a refusal as its two numbers, 0 for none.
#![tactic(auto)]

ghost use Rattle.std.specs.Prelude.{◌≡◌};
ghost use Rattle.checks.specs.Number.{nothing};
ghost use Rattle.order.specs.Order.{number_of};
ghost use Rattle.plain.specs.Plain.{kind_from, number_from};
ghost use Rattle.plain.specs.Answers.{number_told, sum_told, order_told, double_told, enclosed_told, read_told, written_told};

use checks::{Kind, Number, Refusal};
use doubles::{Converted, Enclosing};
use reports::Sum;
use std::cmp::Ordering;

// A number without its limbs, which travel beside it as a lent slice, lowest first.
#[repr(C)]
#[derive(Clone, Copy)]
pub struct PlainNumber {
    pub precision: u64,
    pub exponent: i32,
    pub negative: bool,
    pub zero: bool,
}

// A sum: the number, the depth, the limbs used of the first operand and of the second, the ternary value, the refusal.
#[repr(C)]
#[derive(Clone, Copy)]
pub struct PlainSum {
    pub number: PlainNumber,
    pub depth: u64,
    pub first: u64,
    pub second: u64,
    pub ternary: i8,
    pub rule: u8,
    pub place: u8,
}

// The number of a double or of a line, and the refusal.
#[repr(C)]
#[derive(Clone, Copy)]
pub struct PlainRead {
    pub number: PlainNumber,
    pub rule: u8,
    pub place: u8,
}

// The order as -1, 0 or 1, and the refusal.
#[repr(C)]
#[derive(Clone, Copy)]
pub struct PlainOrder {
    pub order: i8,
    pub rule: u8,
    pub place: u8,
}

// A double, the sign of it less the number, and the refusal.
#[repr(C)]
#[derive(Clone, Copy)]
pub struct PlainDouble {
    pub value: f64,
    pub ternary: i8,
    pub rule: u8,
    pub place: u8,
}

// The two doubles, and the refusal.
#[repr(C)]
#[derive(Clone, Copy)]
pub struct PlainPair {
    pub lower: f64,
    pub upper: f64,
    pub rule: u8,
    pub place: u8,
}

// A part of a run of limbs that goes to its top: the place of its lowest limb, and how many limbs it has.
#[repr(C)]
#[derive(Clone, Copy)]
pub struct PlainRun {
    pub start: usize,
    pub count: usize,
}

// How many bytes were written, and the refusal.
#[repr(C)]
#[derive(Clone, Copy)]
pub struct PlainWritten {
    pub count: usize,
    pub rule: u8,
    pub place: u8,
}

#[tactic(auto, unfolding(crate::specs::Plain::kind_from))]
fn kind_from(zero: bool) -> Kind
    ensures { result ≡ kind_from zero }
{
    if zero { Kind::Zero } else { Kind::Regular }
}

// The number that plain fields say.
#[tactic(auto, unfolding(crate::specs::Plain::number_from))]
impl From<PlainNumber> for Number {
    ghost from_gives = { λ x number. number ≡ number_from x };

    fn from(x: PlainNumber) -> Number {
        Number {
            negative: x.negative,
            kind: kind_from(x.zero),
            precision: x.precision,
            exponent: x.exponent,
        }
    }
}

// The plain fields of a number.
#[tactic(auto, unfolding(crate::specs::Answers::number_told))]
impl From<Number> for PlainNumber {
    ghost from_gives = { λ x plain. plain ≡ number_told x };

    fn from(x: Number) -> PlainNumber {
        PlainNumber {
            precision: x.precision,
            exponent: x.exponent,
            negative: x.negative,
            zero: checks::is_zero(x),
        }
    }
}

// The plain fields of a sum; a refusal has +0 of precision 2 and the ternary value 0.
#[tactic(auto, unfolding(crate::specs::Answers::sum_told, crate::specs::Answers::answer_told))]
impl From<Sum> for PlainSum {
    ghost from_gives = { λ s plain. plain ≡ sum_told s };

    fn from(s: Sum) -> PlainSum {
        let first = s.first;
        let second = s.second;
        match s.answer {
            Ok(rounded) => PlainSum {
                number: PlainNumber::from(rounded.number),
                depth: s.depth,
                first,
                second,
                ternary: rounded.ternary,
                rule: 0,
                place: 0,
            },
            Err(cause) => PlainSum {
                number: nothing(),
                depth: s.depth,
                first,
                second,
                ternary: 0,
                rule: cause.rule.number(),
                place: cause.place.number(),
            },
        }
    }
}

#[tactic(auto, unfolding(order::specs::Order::number_of))]
pub fn order_number(order: Ordering) -> i8
    ensures { result ≡ number_of order }
{
    match order {
        Ordering::Less => -1,
        Ordering::Equal => 0,
        Ordering::Greater => 1,
    }
}

// The plain fields of a comparison; a refusal has 0.
#[tactic(auto, unfolding(crate::specs::Answers::order_told))]
impl From<Result<Ordering, Refusal>> for PlainOrder {
    ghost from_gives = { λ compared plain. plain ≡ order_told compared };

    fn from(compared: Result<Ordering, Refusal>) -> PlainOrder {
        match compared {
            Ok(order) => PlainOrder {
                order: order_number(order),
                rule: 0,
                place: 0,
            },
            Err(refusal) => PlainOrder {
                order: 0,
                rule: refusal.rule.number(),
                place: refusal.place.number(),
            },
        }
    }
}

// What is told of a number that is refused: +0 of precision 2.
#[tactic(auto, unfolding(crate::specs::Answers::number_told, checks::specs::Number::nothing, checks::specs::Number::is_zero_kind))]
fn nothing() -> PlainNumber
    ensures { result ≡ number_told nothing }
{
    PlainNumber {
        precision: 2,
        exponent: 0,
        negative: false,
        zero: true,
    }
}

// A double beside a ternary value, with no refusal.
fn plain_value(value: f64, ternary: i8) -> PlainDouble
    ensures { result ≡ record { value = value; ternary = ternary; rule = 0; place = 0 } }
{
    PlainDouble {
        value,
        ternary,
        rule: 0,
        place: 0,
    }
}

// The plain fields of a conversion; a refusal has +0, and 0 beside its number.
#[tactic(auto, unfolding(crate::specs::Answers::double_told, crate::specs::Answers::value_told, unpack::specs::Double::double, unpack::specs::Double::sign_bit))]
impl From<Result<Converted, Refusal>> for PlainDouble {
    ghost from_gives = { λ converted plain. plain ≡ double_told converted };

    fn from(converted: Result<Converted, Refusal>) -> PlainDouble {
        match converted {
            Ok(Converted::Exact(d)) => plain_value(d, 0),
            Ok(Converted::Below(d)) => plain_value(d, -1),
            Ok(Converted::Above(d)) => plain_value(d, 1),
            Err(refusal) => PlainDouble {
                value: 0.0,
                ternary: 0,
                rule: refusal.rule.number(),
                place: refusal.place.number(),
            },
        }
    }
}

// The plain fields of an enclosing pair; under a refusal both ends are +0.
#[tactic(auto, unfolding(crate::specs::Answers::enclosed_told, unpack::specs::Double::double, unpack::specs::Double::sign_bit))]
impl From<Result<Enclosing, Refusal>> for PlainPair {
    ghost from_gives = { λ enclosed plain. plain ≡ enclosed_told enclosed };

    fn from(enclosed: Result<Enclosing, Refusal>) -> PlainPair {
        match enclosed {
            Ok(pair) => PlainPair {
                lower: pair.lower,
                upper: pair.upper,
                rule: 0,
                place: 0,
            },
            Err(refusal) => PlainPair {
                lower: 0.0,
                upper: 0.0,
                rule: refusal.rule.number(),
                place: refusal.place.number(),
            },
        }
    }
}

// The plain fields of a number that is read; a refusal has +0 of precision 2.
#[tactic(auto, unfolding(crate::specs::Answers::read_told))]
impl From<Result<Number, Refusal>> for PlainRead {
    ghost from_gives = { λ read plain. plain ≡ read_told read };

    fn from(read: Result<Number, Refusal>) -> PlainRead {
        match read {
            Ok(number) => PlainRead {
                number: PlainNumber::from(number),
                rule: 0,
                place: 0,
            },
            Err(refusal) => PlainRead {
                number: nothing(),
                rule: refusal.rule.number(),
                place: refusal.place.number(),
            },
        }
    }
}

// The plain fields of what was written; a refusal has 0.
#[tactic(auto, unfolding(crate::specs::Answers::written_told))]
impl From<Result<usize, Refusal>> for PlainWritten {
    ghost from_gives = { λ written plain. plain ≡ written_told written };

    fn from(written: Result<usize, Refusal>) -> PlainWritten {
        match written {
            Ok(count) => PlainWritten {
                count,
                rule: 0,
                place: 0,
            },
            Err(refusal) => PlainWritten {
                count: 0,
                rule: refusal.rule.number(),
                place: refusal.place.number(),
            },
        }
    }
}
