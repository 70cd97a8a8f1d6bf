// Add, subtract, re-round.
ghost use Rattle.std.specs.Prelude.{◌≡◌};
ghost use Rattle.depth.specs.Depth.{plus, minus};
ghost use Rattle.reports.specs.Summed.{Summed, Rerounded};
ghost use Rattle.reports.specs.declared.report.Sum.{Sum};
ghost use Rattle.plain.specs.Plain.{number_from};
ghost use Rattle.plain.specs.Answers.{sum_told};

use checks::Number;
use plain::{PlainNumber, PlainSum};

// x + y, rounded to p digits.
pub fn sheafbuckle_add<'a>(
    mode: u8,
    x: PlainNumber,
    xl: &'a [u64],
    y: PlainNumber,
    yl: &'a [u64],
    p: u64,
    target: &mut [u64],
) -> PlainSum
    ensures { (s : Sum) × ((result ≡ sum_told s) × Summed plus mode (number_from x) xl.now (number_from y) yl.now p target.old target.new s) }
{
    PlainSum::from(sums::add(mode, Number::from(x), xl, Number::from(y), yl, p, target))
}

// x - y, rounded to p digits.
pub fn sheafbuckle_subtract<'a>(
    mode: u8,
    x: PlainNumber,
    xl: &'a [u64],
    y: PlainNumber,
    yl: &'a [u64],
    p: u64,
    target: &mut [u64],
) -> PlainSum
    ensures { (s : Sum) × ((result ≡ sum_told s) × Summed minus mode (number_from x) xl.now (number_from y) yl.now p target.old target.new s) }
{
    PlainSum::from(sums::subtract(mode, Number::from(x), xl, Number::from(y), yl, p, target))
}

// x alone, rounded to p digits.
pub fn sheafbuckle_reround(
    mode: u8,
    x: PlainNumber,
    xl: &[u64],
    p: u64,
    target: &mut [u64],
) -> PlainSum
    ensures { (s : Sum) × ((result ≡ sum_told s) × Rerounded mode (number_from x) xl.now p target.old target.new s) }
{
    PlainSum::from(sums::reround(mode, Number::from(x), xl, p, target))
}
