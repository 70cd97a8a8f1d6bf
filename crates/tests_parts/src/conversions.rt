// Conversions of numbers to doubles and back. A double stands by its bits.
ghost use Rattle.std.specs.Prelude.{◌≤◌};
ghost use Rattle.std.specs.Io.Cursor.{cursor_position};

use crate::answers::put_read;
use checks::Refusal;
use doubles::{Converted, Enclosing};
use std::io;
use std::io::Write;
use vectors::{ANSWER_ROOM, Answer, Fields, LIMB_ROOM, RefusalFields, put_all};

// The pattern of +infinity; above it, the sign's bit apart, stand those of NaNs.
const INFINITY: u64 = 0x7ff0_0000_0000_0000;

// Printed for a NaN, which no answer is.
const A_NAN: u64 = 0x7ff8_0000_0000_0000;

fn bits_of(x: f64) -> u64 {
    if x.is_nan() { A_NAN } else { x.to_bits() }
}

// The double of a pattern; one NaN for every NaN's pattern.
fn double_of(bits: u64) -> f64 {
    if INFINITY < bits % 0x8000_0000_0000_0000 {
        return f64::NAN;
    }
    f64::from_bits(bits)
}

// What is asked: 0 a number to a double, 2 a double to a number, any other the pair of doubles around a number.
#[derive(Clone, Copy)]
enum Conversion {
    ToDouble,
    Enclosing,
    FromDouble,
}

impl From<u8> for Conversion {
    fn from(number: u8) -> Conversion {
        match number {
            0 => Conversion::ToDouble,
            2 => Conversion::FromDouble,
            _ => Conversion::Enclosing,
        }
    }
}

// Refusal, case where there is one, and the doubles.
fn put_bits(
    refusal: RefusalFields,
    case: &[u8],
    doubles: &[u64],
    answer: &mut Answer,
) -> io::Result<()> {
    write!(answer, "{refusal}")?;
    put_all(answer, case, 2)?;
    put_all(answer, doubles, 16)?;
    answer.write_all(b"\n")
}

// Case 0 is exact, 1 below, 2 above, 3 refused.
fn put_converted(converted: Result<Converted, Refusal>, answer: &mut Answer)
    ensures { cursor_position answer.new ≤ 4096 }
{
    let (case, bits) = match converted {
        Ok(Converted::Exact(d)) => (0u8, bits_of(d)),
        Ok(Converted::Below(d)) => (1, bits_of(d)),
        Ok(Converted::Above(d)) => (2, bits_of(d)),
        Err(_) => (3, 0),
    };
    let refusal = RefusalFields(converted.err());
    let _cut = put_bits(refusal, &[case], &[bits], answer);
    answer.set_position(answer.position().min(ANSWER_ROOM));
}

// Both ends are +0 where the number is refused.
fn put_enclosed(enclosed: Result<Enclosing, Refusal>, answer: &mut Answer)
    ensures { cursor_position answer.new ≤ 4096 }
{
    let refusal = RefusalFields(enclosed.err());
    let (lower, upper) = match enclosed {
        Ok(pair) => (bits_of(pair.lower), bits_of(pair.upper)),
        Err(_) => (0, 0),
    };
    let _cut = put_bits(refusal, &[], &[lower, upper], answer);
    answer.set_position(answer.position().min(ANSWER_ROOM));
}

// Mode (2) and a number.
fn run_number(conversion: Conversion, mut fields: Fields, answer: &mut Answer)
    ensures { cursor_position answer.new ≤ 4096 }
{
    let mut room = [0u64; LIMB_ROOM];
    let mode = fields.byte();
    let x = fields.number();
    let xl = fields.limbs(&mut room);
    match conversion {
        Conversion::ToDouble => put_converted(doubles::to_double(mode, x, xl), answer),
        _ => put_enclosed(doubles::enclose(x, xl), answer),
    }
}

// A double (16), target limb count (4), fill (2); no answer where the target has not so many limbs.
fn run_double(mut fields: Fields, answer: &mut Answer)
    ensures { cursor_position answer.new ≤ 4096 }
{
    let double = double_of(fields.word());
    let count = usize::from(fields.pair());
    let mut room = vectors::filled(u64::from(fields.byte()));
    let Some(target) = room.get_mut(..count) else {
        answer.set_position(0);
        return;
    };
    let read = unpack::from_double(double, target);
    put_read(read, target, answer)
}

// What is asked (2), and then its fields.
pub fn run_case(mut fields: Fields, answer: &mut Answer)
    ensures { cursor_position answer.new ≤ 4096 }
{
    match Conversion::from(fields.byte()) {
        Conversion::FromDouble => run_double(fields, answer),
        conversion => run_number(conversion, fields, answer),
    }
}
