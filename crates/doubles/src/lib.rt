// Numbers to doubles, and to an enclosing pair of doubles. A double is stated by its bits.
#![tactic(auto)]

ghost use Rattle.std.specs.Prelude.{◌≡◌};
ghost use Rattle.rounding.specs.Answer.{zero_of};
ghost use Rattle.rounding.specs.declared.Mode.TheVariants.{Upward, Downward};
ghost use Rattle.checks.specs.Number.{operand_of};
ghost use Rattle.checks.specs.Held.{formed, regular};
ghost use Rattle.select.specs.Steps.{Selects};
ghost use Rattle.doubles.specs.Convert.{outside, case_of, double_case, in_doubles, converted_of, told, told_of};
ghost use Rattle.doubles.specs.Enclose.{end_of, pair_of, enclosed_of};

use checks::{Formed, Number, Place, Refusal, Regular, Rule};
use place::PlacedLimb;
use rounding::Mode;

mod pack; // pack.rt: bits of a double

// Exact, with the double; the double lies below the number; it lies above.
#[derive(Clone, Copy, Debug, PartialEq)]
pub enum Converted {
    Exact(f64),
    Below(f64),
    Above(f64),
}

// The down answer and the up answer.
#[derive(Clone, Copy, Debug, PartialEq)]
pub struct Enclosing {
    pub lower: f64,
    pub upper: f64,
}

// The case of a ternary value.
fn answer(ternary: i8, double: f64) -> Converted
    ensures { result ≡ case_of ternary double }
{
    if ternary < 0 {
        return Converted::Below(double);
    }
    if 0 < ternary {
        return Converted::Above(double);
    }
    Converted::Exact(double)
}

// Refused, with no place.
fn outside(rule: Rule) -> Result<Converted, Refusal>
    ensures { result ≡ outside rule }
{
    Err(Refusal {
        rule,
        place: Place::Call,
    })
}

// The double of the 53 digits that a mode selects of a regular number, once the range is judged.
fn judged(mode: Mode, x: Regular, s: PlacedLimb) -> Result<Converted, Refusal>
    requires { Selects mode (regular x) s }
    ensures { result ≡ double_case (in_doubles mode (regular x.entry)) }
{
    let number = x.number;
    let placed = s.placed;
    if placed.rule == 6 {
        return outside(Rule::DoubleTooLarge);
    }
    if pack::MOST_EXPONENT < placed.exponent {
        return outside(Rule::DoubleTooLarge);
    }
    if placed.exponent < pack::LEAST_EXPONENT {
        return outside(Rule::DoubleTooSmall);
    }
    let double = pack::pack(number.negative, placed.exponent, s.limb);
    Ok(answer(placed.ternary, double))
}

// The exact zero of a zero's sign.
fn zero_exact(negative: bool) -> Result<Converted, Refusal>
    ensures { result ≡ double_case (zero_of negative) }
{
    Ok(Converted::Exact(pack::zero_of(negative)))
}

// The double that a mode selects for a regular number: 53 digits first, and then the range is judged.
fn convert_regular(mode: Mode, x: Regular) -> Result<Converted, Refusal>
    ensures { result ≡ double_case (in_doubles mode (regular x.entry)) }
{
    let number = x.number;
    let a = select::leading(x.limbs, number.precision);
    judged(mode, x, select::select(mode, x, a))
}

// The double that a mode selects for a number of good form.
fn convert(mode: Mode, x: Formed) -> Result<Converted, Refusal>
    ensures { result ≡ double_case (in_doubles mode (formed x.entry)) }
{
    let number = x.number;
    if checks::is_zero(number) {
        return zero_exact(number.negative);
    }
    convert_regular(
        mode,
        Regular {
            number,
            limbs: x.limbs,
        },
    )
}

// A number to a double under a mode, once refusals 1 to 5 are checked.
pub fn to_double(mode: u8, x: Number, xl: &[u64]) -> Result<Converted, Refusal>
    ensures value { result ≡ converted_of mode (operand_of x xl.now) }
    ensures result_value { told result ≡ told_of mode (operand_of x xl.now) }
{
    admission::check_converted(mode, x, xl)?;
    let Ok(known) = Mode::try_from(mode) else {
        return outside(Rule::Mode);
    };
    convert(
        known,
        Formed {
            number: x,
            limbs: xl,
        },
    )
}

// The double of an answer.
fn end_of(c: Converted) -> f64
    ensures { result ≡ end_of c }
{
    match c {
        Converted::Exact(d) => d,
        Converted::Below(d) => d,
        Converted::Above(d) => d,
    }
}

// The pair of the down answer and the up answer; the lower end's refusal is named first.
fn pair_of(
    down: Result<Converted, Refusal>,
    up: Result<Converted, Refusal>,
) -> Result<Enclosing, Refusal>
    ensures { result ≡ pair_of down up }
{
    let lower = end_of(down?);
    let upper = end_of(up?);
    Ok(Enclosing { lower, upper })
}

// The pair of a regular number of good form; its leading digits are read once for both ends.
fn enclose_regular(x: Regular) -> Result<Enclosing, Refusal>
    ensures { result ≡ pair_of (double_case (in_doubles Downward (regular x.entry))) (double_case (in_doubles Upward (regular x.entry))) }
{
    let number = x.number;
    let a = select::leading(x.limbs, number.precision);
    let down = judged(Mode::Downward, x, select::select(Mode::Downward, x, a));
    let up = judged(Mode::Upward, x, select::select(Mode::Upward, x, a));
    pair_of(down, up)
}

// A number to the enclosing pair of doubles, once refusals 2 to 5 are checked.
pub fn enclose(x: Number, xl: &[u64]) -> Result<Enclosing, Refusal>
    ensures { result ≡ enclosed_of (operand_of x xl.now) }
{
    admission::check_alone(x, xl)?;
    if checks::is_zero(x) {
        let zero = zero_exact(x.negative);
        return pair_of(zero, zero);
    }
    enclose_regular(Regular {
        number: x,
        limbs: xl,
    })
}
