// The archive for C and Rust: what they link, each function a single call of the one of the same name in `sheafbuckle`, with its clauses.
#![tactic(auto)]

ghost use Rattle.std.specs.Prelude.{◌≡◌, ◌+◌, length, drop};
ghost use Rattle.depth.specs.Depth.{plus, minus};
ghost use Rattle.reports.specs.Summed.{Summed, Rerounded};
ghost use Rattle.checks.specs.Number.{operand_of, turned_number};
ghost use Rattle.order.specs.Order.{compared_of};
ghost use Rattle.doubles.specs.Convert.{converted_of};
ghost use Rattle.doubles.specs.Enclose.{enclosed_of};
ghost use Rattle.unpack.specs.Read.{read_of as double_read_of, read_limbs};
ghost use Rattle.parts.specs.Trimmed.{trimmed};
ghost use Rattle.lines.specs.Reading.{head_of, read_of, target_after};
ghost use Rattle.lines.specs.Writing.{written_of, room_after};
ghost use Rattle.reports.specs.declared.report.Sum.{Sum};
ghost use Rattle.plain.specs.Plain.{number_from};
ghost use Rattle.plain.specs.Answers.{sum_told, double_told, enclosed_told, read_told, order_told, written_told};

use plain::{
    PlainDouble, PlainNumber, PlainOrder, PlainPair, PlainRead, PlainRun, PlainSum, PlainWritten,
};

// x + y, rounded to p digits.
#[unsafe(no_mangle)]
pub extern "C" fn sheafbuckle_add<'a>(
    mode: u8,
    x: PlainNumber,
    xl: &'a [u64],
    y: PlainNumber,
    yl: &'a [u64],
    p: u64,
    target: &mut [u64],
) -> PlainSum
    ensures { (s : Sum) × ((result ≡ sum_told s) × Summed plus mode (number_from x) xl.now (number_from y) yl.now p target.old target.new s) }
{
    sheafbuckle::sheafbuckle_add(mode, x, xl, y, yl, p, target)
}

// x - y, rounded to p digits.
#[unsafe(no_mangle)]
pub extern "C" fn sheafbuckle_subtract<'a>(
    mode: u8,
    x: PlainNumber,
    xl: &'a [u64],
    y: PlainNumber,
    yl: &'a [u64],
    p: u64,
    target: &mut [u64],
) -> PlainSum
    ensures { (s : Sum) × ((result ≡ sum_told s) × Summed minus mode (number_from x) xl.now (number_from y) yl.now p target.old target.new s) }
{
    sheafbuckle::sheafbuckle_subtract(mode, x, xl, y, yl, p, target)
}

// x alone, rounded to p digits.
#[unsafe(no_mangle)]
pub extern "C" fn sheafbuckle_reround(
    mode: u8,
    x: PlainNumber,
    xl: &[u64],
    p: u64,
    target: &mut [u64],
) -> PlainSum
    ensures { (s : Sum) × ((result ≡ sum_told s) × Rerounded mode (number_from x) xl.now p target.old target.new s) }
{
    sheafbuckle::sheafbuckle_reround(mode, x, xl, p, target)
}

// The order of two numbers.
#[unsafe(no_mangle)]
pub extern "C" fn sheafbuckle_compare(
    x: PlainNumber,
    xl: &[u64],
    y: PlainNumber,
    yl: &[u64],
) -> PlainOrder
    ensures { result ≡ order_told (compared_of (number_from x) xl.now (number_from y) yl.now) }
{
    sheafbuckle::sheafbuckle_compare(x, xl, y, yl)
}

// The number with the other sign; takes anything.
#[unsafe(no_mangle)]
pub extern "C" fn sheafbuckle_turn_sign(x: PlainNumber) -> PlainNumber
    ensures { number_from result ≡ turned_number (number_from x) }
{
    sheafbuckle::sheafbuckle_turn_sign(x)
}

// A number to a double under a mode.
#[unsafe(no_mangle)]
pub extern "C" fn sheafbuckle_to_double(mode: u8, x: PlainNumber, xl: &[u64]) -> PlainDouble
    ensures { result ≡ double_told (converted_of mode (operand_of (number_from x) xl.now)) }
{
    sheafbuckle::sheafbuckle_to_double(mode, x, xl)
}

// A number to the enclosing pair of doubles.
#[unsafe(no_mangle)]
pub extern "C" fn sheafbuckle_enclose(x: PlainNumber, xl: &[u64]) -> PlainPair
    ensures { result ≡ enclosed_told (enclosed_of (operand_of (number_from x) xl.now)) }
{
    sheafbuckle::sheafbuckle_enclose(x, xl)
}

// A double to a number of precision 53, exact; the target is one limb.
#[unsafe(no_mangle)]
pub extern "C" fn sheafbuckle_from_double(d: f64, target: &mut [u64]) -> PlainRead
    ensures result_value { result ≡ read_told (double_read_of (length target.old) d) }
    ensures target_after { target.new ≡ read_limbs target.old d }
{
    sheafbuckle::sheafbuckle_from_double(d, target)
}

// The limbs from the lowest non-zero one to the top, and none if all are 0.
#[unsafe(no_mangle)]
pub extern "C" fn sheafbuckle_trim(limbs: &[u64]) -> PlainRun
    ensures { (drop result.start limbs.now ≡ trimmed limbs.now) × (result.start + result.count ≡ length limbs.now) }
{
    sheafbuckle::sheafbuckle_trim(limbs)
}

// The number's line, into the room.
#[unsafe(no_mangle)]
pub extern "C" fn sheafbuckle_write_line(
    x: PlainNumber,
    limbs: &[u64],
    room: &mut [u8],
) -> PlainWritten
    ensures result_value { result ≡ written_told (written_of (number_from x) limbs.now (length room.old)) }
    ensures room_after { room.new ≡ room_after (number_from x) limbs.now room.old }
{
    sheafbuckle::sheafbuckle_write_line(x, limbs, room)
}

// The number that a line holds, without its limbs.
#[unsafe(no_mangle)]
pub extern "C" fn sheafbuckle_read_head(line: &[u8]) -> PlainRead
    ensures { result ≡ read_told (head_of line.now) }
{
    sheafbuckle::sheafbuckle_read_head(line)
}

// The number that a line holds, its limbs into the target.
#[unsafe(no_mangle)]
pub extern "C" fn sheafbuckle_read_line(line: &[u8], target: &mut [u64]) -> PlainRead
    ensures result_value { result ≡ read_told (read_of (length target.old) line.now) }
    ensures target_after { target.new ≡ target_after line.now target.old }
{
    sheafbuckle::sheafbuckle_read_line(line, target)
}
