// The bits of a double.
ghost use Rattle.std.specs.Prelude.{◌≡◌, ◌/◌, ◌^◌, ◌≤◌};
ghost use Rattle.unpack.specs.Double.{double_least, double_most, sign_bit, packed, double};

// The counted exponents of normal doubles, as 0.b1 .. b53 * 2^e: 2^40 - 1021 to 2^40 + 1024.
pub const LEAST_EXPONENT: u64 = 1099511626755;

pub const MOST_EXPONENT: u64 = 1099511628800;

// 2^63 for a negative double.
fn sign_bit(negative: bool) -> u64
    ensures { result ≡ sign_bit negative }
{
    if negative { 9223372036854775808 } else { 0 }
}

pub fn zero_of(negative: bool) -> f64
    ensures { result ≡ double (sign_bit negative) }
{
    f64::from_bits(sign_bit(negative))
}

// The normal double of that counted exponent whose 53 digits stand at the top of the limb: the exponent's field counts from 1, and the
// first digit is not written.
pub fn pack(negative: bool, exponent: u64, limb: u64) -> f64
    requires { (double_least ≤ exponent) × (exponent ≤ double_most) × (2 ^ 63 ≤ limb) }
    ensures { result ≡ double (packed negative exponent (limb / 2 ^ 11)) }
{
    let field = exponent - LEAST_EXPONENT + 1;
    let fraction = (limb >> 11) - 4503599627370496;
    f64::from_bits(sign_bit(negative) + field * 4503599627370496 + fraction)
}
