// Sums of regular numbers.
ghost use Rattle.std.specs.Prelude.{◌≡◌, true, None, length};
ghost use Rattle.numbers.specs.Operand.{Operand, WellFormed};
ghost use Rattle.depth.specs.Depth.{plus};
ghost use Rattle.checks.specs.Held.{regular};
ghost use Rattle.checks.specs.Room.{Room};
ghost use Rattle.reports.specs.Summed.{Reported};
ghost use Rattle.descent.specs.Course.{Course};
ghost use Rattle.descent.specs.Level.{Level};
ghost use Rattle.general.specs.Differs.{Differs};

use checks::Regular;
use reports::Sum;
use rounding::Mode;
use settle::Pair;

// A regular number and a zero, whichever zero it is. A precision and its target stay two here: one struct of both would ask each function for a clause that its
// reference stays the same.
pub fn single(mode: Mode, x: Regular, p: u64, target: &mut [u64]) -> Sum
    requires { Room p (length target.old) }
    ensures { (z : Operand) → WellFormed z → z.is_zero ≡ true → Reported plus mode p (regular x.entry) z target.new result }
{
    let negative = x.number.negative;
    let pair = Pair {
        same: true,
        first: x.number.precision,
        second: 0,
        gap: 0,
        top: checks::counted_exponent(x.number.exponent),
    };
    let way = settle::way_of(mode, negative);
    let walked = descent::walk_down(way, p, pair, x.limbs, x.limbs, 0, target);
    let k = walked.columns;
    let placed = descent::finish(mode, negative, p, pair, walked, target);
    let first = reports::used(k, 0, x.limbs.len());
    reports::answered(placed, negative, p, k, first, 0)
}

// Two regular numbers in order, the first larger from a column on where their signs are unlike.
fn ordered(mode: Mode, x: Regular, y: Regular, p: u64, from: u64, target: &mut [u64]) -> Sum
    requires { Course (regular x) (regular y) from × Room p (length target.old) }
    ensures { Reported plus mode p (regular x.entry) (regular y.entry) target.new result }
{
    let negative = x.number.negative;
    let top = checks::counted_exponent(x.number.exponent);
    let gap = top - checks::counted_exponent(y.number.exponent);
    let pair = Pair {
        same: negative == y.number.negative,
        first: x.number.precision,
        second: y.number.precision,
        gap: gap,
        top: top,
    };
    let way = settle::way_of(mode, negative);
    let walked = descent::walk_down(way, p, pair, x.limbs, y.limbs, from, target);
    let k = walked.columns;
    let placed = descent::finish(mode, negative, p, pair, walked, target);
    let first = reports::used(k, 0, x.limbs.len());
    let second = reports::used(k, gap, y.limbs.len());
    reports::answered(placed, negative, p, k, first, second)
}

// The first column in which two operands differ, and whether the second is larger there.
#[derive(Clone, Copy, Debug, PartialEq, Eq)]
pub struct Difference {
    pub column: u64,
    pub second_larger: bool,
}

// The first column in which two operands of one exponent and of as many limbs differ: no end is looked for on the way. By an index, since a limb is fetched by
// one function.
fn first_difference_level(x: Regular, y: Regular) -> Option<Difference>
    requires { length x.limbs.now ≡ length y.limbs.now }
    ensures { Differs x.entry.limbs.now y.entry.limbs.now result }
{
    let n = x.limbs.len();
    for i in (0..n).rev() {
        let u = checks::fetch(x.limbs, x.number.precision, i);
        let v = checks::fetch(y.limbs, y.number.precision, i);
        if u != v {
            return Some(Difference {
                column: (n - 1 - i) as u64,
                second_larger: u < v,
            });
        }
    }
    None
}

// The first column in which two operands of one exponent differ.
fn first_difference(x: Regular, y: Regular) -> Option<Difference>
    ensures { Differs x.entry.limbs.now y.entry.limbs.now result }
{
    if x.limbs.len() == y.limbs.len() {
        return first_difference_level(x, y);
    }
    for k in 0..x.limbs.len().max(y.limbs.len()) as u64 {
        let u = columns::column(x.limbs, x.number.precision, 0, k);
        let v = columns::column(y.limbs, y.number.precision, 0, k);
        if u != v {
            return Some(Difference {
                column: k,
                second_larger: u < v,
            });
        }
    }
    None
}

// Two regular numbers of one exponent and unlike signs, alike in all columns: they cancel.
fn cancelled(mode: Mode, x: Regular, y: Regular, p: u64, target: &mut [u64]) -> Sum
    requires { Level (regular x) (regular y) × Differs x.limbs.now y.limbs.now None × Room p (length target.old) }
    ensures { Reported plus mode p (regular x.entry) (regular y.entry) target.new result }
{
    let k = x.limbs.len().max(y.limbs.len()) as u64;
    parts::clear(target);
    reports::zero(
        reports::zero_sign(mode, x.number.negative, y.number.negative),
        p,
        k,
        reports::used(k, 0, x.limbs.len()),
        reports::used(k, 0, y.limbs.len()),
    )
}

// Two regular numbers of one exponent and unlike signs.
fn unlike(mode: Mode, x: Regular, y: Regular, p: u64, target: &mut [u64]) -> Sum
    requires { Level (regular x) (regular y) × Room p (length target.old) }
    ensures { Reported plus mode p (regular x.entry) (regular y.entry) target.new result }
{
    match first_difference(x, y) {
        None => cancelled(mode, x, y, p, target),
        Some(d) => {
            if d.second_larger {
                reports::exchanged(ordered(mode, y, x, p, d.column, target))
            } else {
                ordered(mode, x, y, p, d.column, target)
            }
        }
    }
}

// Two regular numbers.
pub fn both(mode: Mode, x: Regular, y: Regular, p: u64, target: &mut [u64]) -> Sum
    requires { Room p (length target.old) }
    ensures { Reported plus mode p (regular x.entry) (regular y.entry) target.new result }
{
    let a = checks::counted_exponent(x.number.exponent);
    let b = checks::counted_exponent(y.number.exponent);
    if b < a {
        return ordered(mode, x, y, p, 0, target);
    }
    if a < b {
        return reports::exchanged(ordered(mode, y, x, p, 0, target));
    }
    if x.number.negative == y.number.negative {
        return ordered(mode, x, y, p, 0, target);
    }
    unlike(mode, x, y, p, target)
}
