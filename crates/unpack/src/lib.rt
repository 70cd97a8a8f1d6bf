// The number of a double's bits.
#![tactic(auto)]

ghost use Rattle.std.specs.Prelude.{◌≡◌, ◌+◌, ◌<◌, length};
ghost use Rattle.std.specs.Float.Ieee.{size};
ghost use Rattle.unpack.specs.Double.{exponent_field, double_sign, double_digits, double_scale};
ghost use Rattle.unpack.specs.Read.{number_of_bits, limbs_of_bits, read_of, read_limbs};
ghost use Rattle.unpack.specs.Steps.{read_as, bits_read, bits_limbs};

use checks::{Kind, Number, Place, Refusal, Rule};

// The exponent field of an infinity or a NaN.
const ONES: u64 = 2047;

// 2^52: the first digit of a normal double.
const FIRST_DIGIT: u64 = 4503599627370496;

fn read(negative: bool, kind: Kind, exponent: i32) -> Number
    ensures { result ≡ read_as negative kind exponent }
{
    Number {
        negative,
        kind,
        precision: 53,
        exponent,
    }
}

fn field_of(bits: u64) -> u64
    ensures { result ≡ exponent_field bits }
{
    bits / FIRST_DIGIT % 2048
}

// The fraction, with the first digit of a normal double.
fn digits_of(bits: u64) -> u64
    ensures { result ≡ double_digits bits }
{
    let fraction = bits % FIRST_DIGIT;
    if field_of(bits) == 0 {
        return fraction;
    }
    FIRST_DIGIT + fraction
}

// 2^(scale - 1075) is the weight of the last digit.
fn scale_of(bits: u64) -> u64
    ensures { result ≡ double_scale bits }
{
    let field = field_of(bits);
    if field == 0 {
        return 1;
    }
    field
}

// The zero digits above the first 1.
fn zeros_above(digits: u64) -> u64
    requires { 0 < digits }
    ensures { (result + size digits ≡ 64) × (0 < size digits) }
{
    u64::leading_zeros(digits) as u64
}

// A finite double that is not 0: its digits are moved up until the first stands at the top of the limb.
fn regular(bits: u64, negative: bool, digits: u64, target: &mut [u64]) -> Number
    requires { (length target.old ≡ 1) × (0 < digits) × (digits ≡ double_digits bits) × (negative ≡ double_sign bits) }
    ensures value { result ≡ number_of_bits bits }
    ensures target_after { target.new ≡ limbs_of_bits bits }
{
    let scale = scale_of(bits);
    let zeros = zeros_above(digits);
    target[0] = digits << zeros;
    let exponent = checks::exponent_of(1099511626765 + scale - zeros);
    read(negative, Kind::Regular, exponent)
}

// The number of a double that is no NaN.
pub fn from_bits(bits: u64, target: &mut [u64]) -> Result<Number, Refusal>
    requires { length target.old ≡ 1 }
    ensures value { result ≡ bits_read bits }
    ensures target_after { target.new ≡ bits_limbs target.old bits }
{
    if field_of(bits) == ONES {
        return Err(Refusal {
            rule: Rule::NoNumber,
            place: Place::First,
        });
    }
    let negative = 9223372036854775808 <= bits;
    let digits = digits_of(bits);
    if digits == 0 {
        target[0] = 0;
        return Ok(read(negative, Kind::Zero, 0));
    }
    Ok(regular(bits, negative, digits, target))
}

// A double to a number of precision 53, exact; the target is one limb.
pub fn from_double(d: f64, target: &mut [u64]) -> Result<Number, Refusal>
    ensures value { result ≡ read_of (length target.old) d }
    ensures target_after { target.new ≡ read_limbs target.old d }
{
    if target.len() != 1 {
        return Err(Refusal {
            rule: Rule::Limbs,
            place: Place::Target,
        });
    }
    if d != d {
        return Err(Refusal {
            rule: Rule::NoNumber,
            place: Place::First,
        });
    }
    from_bits(f64::to_bits(d), target)
}
