// The order of two numbers.
#![tactic(auto)]

ghost use Rattle.std.specs.Prelude.{◌≡◌, true, cond, ◌||◌, List, [], ℕ, length};
ghost use Rattle.std.specs.Ordering.{ordering_reverse};
ghost use Rattle.checks.specs.Number.{is_zero_kind, operand_of};
ghost use Rattle.order.specs.Order.{case_of, compared_of};
ghost use Rattle.order.specs.Steps.{from_top, aligned_order, regular_order, reversed_if, same_order, apart_order, signed_order};

use checks::{Number, Refusal};
use std::cmp::Ordering;

// Limb i of a number of that precision, counted from the top; below the lowest limb stands 0.
fn from_top(limbs: &[u64], precision: u64, i: usize) -> u64
    ensures { result ≡ from_top limbs.now i }
{
    if i < limbs.len() {
        let index = limbs.len() - 1 - i;
        return checks::fetch(limbs, precision, index);
    }
    0
}

// Two mantissas, aligned at the top, limb by limb down to the first difference:
//
//     x   [top] [   ] [   ] [low]
//     y   [top] [low]   0     0
fn order_padded(xl: &[u64], xp: u64, yl: &[u64], yp: u64) -> Ordering
    ensures { result ≡ case_of (aligned_order xl.now yl.now) }
{
    for i in 0..xl.len().max(yl.len()) {
        let a = from_top(xl, xp, i);
        let b = from_top(yl, yp, i);
        if a < b {
            return Ordering::Less;
        }
        if b < a {
            return Ordering::Greater;
        }
    }
    Ordering::Equal
}

// Two mantissas of as many limbs: no end is looked for on the way.
fn order_alike(xl: &[u64], xp: u64, yl: &[u64], yp: u64) -> Ordering
    requires { length xl.now ≡ length yl.now }
    ensures { result ≡ case_of (aligned_order xl.now yl.now) }
{
    for i in (0..xl.len()).rev() {
        let a = checks::fetch(xl, xp, i);
        let b = checks::fetch(yl, yp, i);
        if a != b {
            if a < b {
                return Ordering::Less;
            }
            return Ordering::Greater;
        }
    }
    Ordering::Equal
}

// Two mantissas by their limbs.
fn order_limbs(xl: &[u64], xp: u64, yl: &[u64], yp: u64) -> Ordering
    ensures { result ≡ case_of (aligned_order xl.now yl.now) }
{
    if xl.len() == yl.len() {
        return order_alike(xl, xp, yl, yp);
    }
    order_padded(xl, xp, yl, yp)
}

// The order, turned round where so said.
fn turned_if(turn: bool, order: Ordering) -> Ordering
    ensures { result ≡ cond turn (ordering_reverse order) order }
{
    if turn { order.reverse() } else { order }
}

// Two regular numbers of one sign with different exponents: these decide, and a negative sign turns what they say.
pub fn order_exponents(x: Number, y: Number) -> Ordering
    requires { x.exponent ≡ y.exponent → ⊥ }
    ensures { (xl yl : List ℕ) → result ≡ case_of (reversed_if x.negative (regular_order (operand_of x xl) (operand_of y yl))) }
{
    if (x.exponent < y.exponent) != x.negative {
        return Ordering::Less;
    }
    Ordering::Greater
}

// Two regular numbers of one sign, one exponent and as many limbs: these decide.
pub fn order_level(x: Number, xl: &[u64], y: Number, yl: &[u64]) -> Ordering
    requires { (x.exponent ≡ y.exponent) × (length xl.now ≡ length yl.now) }
    ensures { result ≡ case_of (reversed_if x.negative (regular_order (operand_of x xl.now) (operand_of y yl.now))) }
{
    turned_if(x.negative, order_alike(xl, x.precision, yl, y.precision))
}

// Two regular numbers of one sign: the exponents decide, else the limbs, and a negative sign turns what they say.
fn order_regular(x: Number, xl: &[u64], y: Number, yl: &[u64]) -> Ordering
    ensures { result ≡ case_of (reversed_if x.negative (regular_order (operand_of x xl.now) (operand_of y yl.now))) }
{
    if x.exponent != y.exponent {
        return order_exponents(x, y);
    }
    turned_if(x.negative, order_limbs(xl, x.precision, yl, y.precision))
}

// Two numbers of one sign, one of them a zero: it is below a positive number and above a negative one.
fn order_zeros(x: Number, y: Number) -> Ordering
    requires { is_zero_kind x.kind || is_zero_kind y.kind ≡ true }
    ensures { result ≡ case_of (same_order (operand_of x []) (operand_of y [])) }
{
    let first = checks::is_zero(x);
    let second = checks::is_zero(y);
    if first & second {
        return Ordering::Equal;
    }
    if first != x.negative {
        return Ordering::Less;
    }
    Ordering::Greater
}

// Two numbers of one sign: of two negative ones the larger in size is below.
fn order_same(x: Number, xl: &[u64], y: Number, yl: &[u64]) -> Ordering
    ensures { result ≡ case_of (same_order (operand_of x xl.now) (operand_of y yl.now)) }
{
    if checks::is_zero(x) | checks::is_zero(y) {
        return order_zeros(x, y);
    }
    order_regular(x, xl, y, yl)
}

// Two numbers of different signs: the negative one is below, save that the two zeros are equal.
pub fn order_apart(x: Number, y: Number) -> Ordering
    ensures { result ≡ case_of (apart_order (operand_of x []) (operand_of y [])) }
{
    let xz = checks::is_zero(x);
    let yz = checks::is_zero(y);
    if xz & yz {
        return Ordering::Equal;
    }
    if x.negative {
        return Ordering::Less;
    }
    Ordering::Greater
}

// Two accepted numbers, by their signs first.
fn order_accepted(x: Number, xl: &[u64], y: Number, yl: &[u64]) -> Ordering
    ensures { result ≡ case_of (signed_order (operand_of x xl.now) (operand_of y yl.now)) }
{
    if x.negative != y.negative {
        return order_apart(x, y);
    }
    order_same(x, xl, y, yl)
}

// The order of two numbers, once refusals 2 to 5 are checked.
pub fn compare(x: Number, xl: &[u64], y: Number, yl: &[u64]) -> Result<Ordering, Refusal>
    ensures { result ≡ compared_of x xl.now y yl.now }
{
    admission::check_compared(x, xl, y, yl)?;
    Ok(order_accepted(x, xl, y, yl))
}
