// Fields of an answer, each in so many digits.
ghost use Rattle.std.specs.Prelude.{◌≡◌, ◌++◌, ◌≤◌, ◌<◌, ◌^◌, true, Some, IsSome, OnOk, IfOk, flat_map, take, length, ◌+◌};
ghost use Rattle.std.specs.Io.KnownBytes.{Appends, append_known};
ghost use Rattle.std.specs.Fmt.{WritesOnOk};
ghost use Rattle.vectors.specs.Printed.{in_digits, refusal_text, number_text, item_text};

use checks::{Kind, Number, Refusal};
use std::io::Write;
use std::{fmt, io};

// Fields in one piece, which is quicker than field by field.
fn put_digits<W: fmt::Write>(f: &mut fmt::Formatter<W>, digits: &[u8]) -> fmt::Result
    ensures { WritesOnOk W.write_str_gives f.old result digits.now f.new }
{
    match str::from_utf8(digits) {
        Ok(text) => f.write_str(text),
        Err(_) => Err(fmt::Error),
    }
}

// A field after those that stand before its place.
fn write_field(room: &mut [u8], start: usize, digits: usize, value: u64)
    requires room { start + digits ≤ length room.old }
    requires fits { (0 < digits) × (digits ≤ 16) × (value < 16 ^ digits) }
    ensures size { length room.new ≡ length room.old }
    ensures told { take (start + digits) room.new ≡ take start room.old ++ in_digits digits value }
{
    let end = start + digits;
    text::write_digits(&mut room[start..end], value);
}

fn refusal_digits(rule: u8, place: u8) -> [u8; 4]
    ensures { result ≡ in_digits 2 rule ++ in_digits 2 place }
{
    let mut room = [0u8; 4];
    write_field(&mut room, 0, 2, rule as u64);
    write_field(&mut room, 2, 2, place as u64);
    room
}

fn number_digits(sign: u8, kind: u8, precision: u64, exponent: u32) -> [u8; 28]
    ensures { result ≡ in_digits 2 sign ++ (in_digits 2 kind ++ (in_digits 16 precision ++ in_digits 8 exponent)) }
{
    let mut room = [0u8; 28];
    write_field(&mut room, 0, 2, sign as u64);
    write_field(&mut room, 2, 2, kind as u64);
    write_field(&mut room, 4, 16, precision);
    write_field(&mut room, 20, 8, exponent as u64);
    room
}

// A refusal's rule and place, with which each answer begins; both 0 where nothing is refused.
#[derive(Clone, Copy)]
pub struct RefusalFields(pub Option<Refusal>);

impl fmt::Display for RefusalFields {
    ghost output = { λ r. Some (refusal_text r.0) };

    fn fmt<W: fmt::Write>(&self, f: &mut fmt::Formatter<W>) -> fmt::Result {
        let Some(refusal) = self.0 else {
            return write!(f, "0000");
        };
        let rule = refusal.rule.number();
        let place = refusal.place.number();
        put_digits(f, &refusal_digits(rule, place))
    }
}

// What a refused answer has in place of a number: +0 of precision 2.
pub const NO_NUMBER: Number = Number {
    negative: false,
    kind: Kind::Zero,
    precision: 2,
    exponent: 0,
};

// A number without its limbs, as `Fields::number` reads it. The exponent stands in two's complement.
#[derive(Clone, Copy)]
pub struct NumberFields(pub Number);

impl fmt::Display for NumberFields {
    ghost output = { λ x. Some (number_text x.0) };

    fn fmt<W: fmt::Write>(&self, f: &mut fmt::Formatter<W>) -> fmt::Result {
        let Number {
            negative,
            kind,
            precision,
            exponent,
        } = self.0;
        let sign = negative as u8;
        let kind = kind as u8;
        put_digits(
            f,
            &number_digits(sign, kind, precision, exponent.cast_unsigned()),
        )
    }
}

// How many bytes of digits are held back, so that a run takes few writes.
const HELD: usize = 128;

// Whether a number of two words has no more than so many digits, and these are no more than a word's.
fn fits(high: u64, low: u64, digits: usize) -> bool
    ensures { result ≡ true → (0 < digits) × (digits ≤ 16) × (low < 16 ^ digits) }
{
    if digits == 0 || 16 < digits || high != 0 {
        return false;
    }
    low >> (4 * (digits - 1)) < 16
}

// Adds an item's digits to those that are held, which are written first where there is no room. How many are held then.
fn put_item<T: fmt::LowerHex + fmt::Radix + Copy, W: Write>(
    out: &mut W,
    room: &mut [u8; HELD],
    held: usize,
    item: T,
    digits: usize,
) -> io::Result<usize>
    requires { held ≤ 128 }
    ensures room { IfOk result (λ n. n ≤ 128) }
    ensures told { IsSome (T.word item) → IfOk result (λ n. Appends (append_known (W.contents out.old) (take held room.old)) (append_known (W.contents out.new) (take n room.new)) (item_text digits (T.word item))) }
{
    let (high, low) = item.bits();
    if !fits(high, low, digits) {
        out.write_all(&room[..held])?;
        write!(out, "{item:0digits$x}")?;
        return Ok(0);
    }
    let mut start = held;
    if HELD - held < digits {
        out.write_all(&room[..held])?;
        start = 0;
    }
    let end = start + digits;
    text::write_digits(&mut room[start..end], low);
    Ok(end)
}

// All of a run, the first one first, in so many digits each, without their count.
pub fn put_all<T: fmt::LowerHex + fmt::Radix + Copy, W: Write>(
    out: &mut W,
    items: &[T],
    digits: usize,
) -> io::Result<()>
    ensures { ((x : T) → IsSome (T.word x)) → OnOk result (Appends (W.contents out.old) (W.contents out.new) (flat_map (λ x. item_text digits (T.word x)) items.now)) }
{
    let mut room = [0u8; HELD];
    let mut held = 0;
    for item in items {
        held = put_item(out, &mut room, held, *item, digits)?;
    }
    out.write_all(&room[..held])
}
