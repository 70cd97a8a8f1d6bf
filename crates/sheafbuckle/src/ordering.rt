// Compare, turn the sign.
ghost use Rattle.std.specs.Prelude.{◌≡◌, true, false};
ghost use Rattle.checks.specs.Number.{operand_of, turned_number};
ghost use Rattle.checks.specs.Passes.{Passes};
ghost use Rattle.order.specs.Order.{compared_of};
ghost use Rattle.plain.specs.Plain.{number_from};
ghost use Rattle.plain.specs.Answers.{order_told};

use checks::Number;
use plain::{PlainNumber, PlainOrder, order_number};
use std::cmp::Ordering;

// Whether two numbers are regular and pass tests 2 to 5.
fn are_regular(x: PlainNumber, xl: &[u64], y: PlainNumber, yl: &[u64]) -> bool
    ensures { result ≡ true → Passes (operand_of (number_from x) xl.now) × (x.zero ≡ false) × Passes (operand_of (number_from y) yl.now) × (y.zero ≡ false) }
{
    if !admission::regular_passes(Number::from(x), xl) {
        return false;
    }
    admission::regular_passes(Number::from(y), yl)
}

// The order of any two numbers, or the refusal.
fn compare_any(x: PlainNumber, xl: &[u64], y: PlainNumber, yl: &[u64]) -> PlainOrder
    ensures { result ≡ order_told (compared_of (number_from x) xl.now (number_from y) yl.now) }
{
    PlainOrder::from(order::compare(Number::from(x), xl, Number::from(y), yl))
}

// The same, in a place of its own: what a slower way left in memory is read field by field, and what a quick one tells need not stand there.
fn retold(o: PlainOrder) -> PlainOrder
    ensures { result ≡ o }
{
    PlainOrder {
        order: o.order,
        rule: o.rule,
        place: o.place,
    }
}

// An order without a refusal.
#[tactic(auto, unfolding(plain::specs::Answers::order_told))]
fn told(order: Ordering) -> PlainOrder
    ensures { result ≡ order_told (Ok order) }
{
    PlainOrder {
        order: order_number(order),
        rule: 0,
        place: 0,
    }
}

// The order of two numbers. The plain structs are handed on as they are, so that they are taken apart only where they are looked at.
pub fn sheafbuckle_compare(x: PlainNumber, xl: &[u64], y: PlainNumber, yl: &[u64]) -> PlainOrder
    ensures { result ≡ order_told (compared_of (number_from x) xl.now (number_from y) yl.now) }
{
    if are_regular(x, xl, y, yl) {
        if x.negative != y.negative {
            return told(order::order_apart(Number::from(x), Number::from(y)));
        }
        if x.exponent != y.exponent {
            return told(order::order_exponents(Number::from(x), Number::from(y)));
        }
        if xl.len() == yl.len() {
            return told(order::order_level(Number::from(x), xl, Number::from(y), yl));
        }
        return retold(compare_any(x, &xl[..], y, &yl[..]));
    }
    retold(compare_any(x, &xl[..], y, &yl[..]))
}

// The number with the other sign; takes anything.
pub fn sheafbuckle_turn_sign(x: PlainNumber) -> PlainNumber
    ensures { number_from result ≡ turned_number (number_from x) }
{
    PlainNumber::from(checks::turn_sign(Number::from(x)))
}
