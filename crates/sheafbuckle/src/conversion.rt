// To double, enclosing pair, from double.
ghost use Rattle.std.specs.Prelude.{◌≡◌, length};
ghost use Rattle.checks.specs.Number.{operand_of};
ghost use Rattle.doubles.specs.Convert.{converted_of};
ghost use Rattle.doubles.specs.Enclose.{enclosed_of};
ghost use Rattle.unpack.specs.Read.{read_of, read_limbs};
ghost use Rattle.plain.specs.Plain.{number_from};
ghost use Rattle.plain.specs.Answers.{double_told, enclosed_told, read_told};

use checks::Number;
use plain::{PlainDouble, PlainNumber, PlainPair, PlainRead};

// A number to a double under a mode.
pub fn sheafbuckle_to_double(mode: u8, x: PlainNumber, xl: &[u64]) -> PlainDouble
    ensures { result ≡ double_told (converted_of mode (operand_of (number_from x) xl.now)) }
{
    PlainDouble::from(doubles::to_double(mode, Number::from(x), xl))
}

// A number to the enclosing pair of doubles.
pub fn sheafbuckle_enclose(x: PlainNumber, xl: &[u64]) -> PlainPair
    ensures { result ≡ enclosed_told (enclosed_of (operand_of (number_from x) xl.now)) }
{
    PlainPair::from(doubles::enclose(Number::from(x), xl))
}

// A double to a number of precision 53, exact; the target is one limb.
pub fn sheafbuckle_from_double(d: f64, target: &mut [u64]) -> PlainRead
    ensures result_value { result ≡ read_told (read_of (length target.old) d) }
    ensures target_after { target.new ≡ read_limbs target.old d }
{
    PlainRead::from(unpack::from_double(d, target))
}
