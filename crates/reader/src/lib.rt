// A stored line read: its checks in their order, its number, its limbs.
#![tactic(auto)]

ghost use Rattle.std.specs.Prelude.{◌≡◌, true, ◌+◌, ◌*◌, ◌^◌, ◌≤◌, ◌<◌, length};
ghost use Rattle.checks.specs.declared.Place.TheVariants.{First};
ghost use Rattle.checks.specs.Number.{operand_of};
ghost use Rattle.checks.specs.Check.{form_holds};
ghost use Rattle.lines.specs.Line.{shortest_line};
ghost use Rattle.lines.specs.Reading.{signed_of, kind_of, number_in, limbs_in, digits_hold, head_of, read_of, target_after};

use checks::{Kind, Number, Place, Refusal, Rule};
use lines::{SHORTEST_LINE, field_at, line_size};

// A fault of the line itself.
fn fault(rule: Rule) -> Refusal
    ensures { result ≡ record { rule = rule; place = First } }
{
    Refusal {
        rule,
        place: Place::First,
    }
}

// A word in two's complement.
fn signed(word: u64) -> i32
    requires { word < 2 ^ 32 }
    ensures { result ≡ signed_of word }
{
    (word as u32).cast_signed()
}

// Kinds 0 and 1 are regular numbers; the definition takes any number, since kinds above 3 are refused before.
fn kind_of(k: u64) -> Kind
    ensures { result ≡ kind_of k }
{
    if k < 2 {
        return Kind::Regular;
    }
    Kind::Zero
}

// The number of the first 14 digits.
fn number_in(line: &[u8]) -> Number
    requires { (digits_hold line.now ≡ true) × (shortest_line ≤ length line.now) }
    ensures { result ≡ number_in line.now }
{
    let k = field_at(line, 0, 2);
    let precision = field_at(line, 2, 4);
    let exponent = signed(field_at(line, 6, 8));
    let kind = kind_of(k);
    Number {
        negative: (k == 1) | (k == 3),
        kind: kind,
        precision: precision,
        exponent: exponent,
    }
}

// Checks 10, 2, 8 for the exact size, and 4 of a line of digits.
fn digits_head(line: &[u8]) -> Result<Number, Refusal>
    requires { (digits_hold line.now ≡ true) × (shortest_line ≤ length line.now) }
    ensures { result ≡ head_of line.now }
{
    if 3 < field_at(line, 0, 2) {
        return Err(fault(Rule::LineKind));
    }
    let x = number_in(line);
    if !checks::precision_holds(x.precision) {
        return Err(fault(Rule::Precision));
    }
    if line.len() != line_size(x) {
        return Err(fault(Rule::LineSize));
    }
    if !checks::exponent_holds(x) {
        return Err(fault(Rule::Exponent));
    }
    Ok(x)
}

// The number that a line holds, without its limbs.
pub fn read_head(line: &[u8]) -> Result<Number, Refusal>
    ensures { result ≡ head_of line.now }
{
    if line.len() < SHORTEST_LINE {
        return Err(fault(Rule::LineSize));
    }
    if !lines::digits_hold(line) {
        return Err(fault(Rule::LineByte));
    }
    digits_head(line)
}

// 5 for a line of n limbs: the form is one of the top and the lowest limb alone.
fn form_in(x: Number, line: &[u8], n: usize) -> bool
    requires { (digits_hold line.now ≡ true) × (0 < n) × (length line.now ≡ shortest_line + 16 * n) }
    ensures { result ≡ form_holds (operand_of x (limbs_in n line.now)) }
{
    let top = field_at(line, 14, 16);
    let low = field_at(line, line.len() - 17, 16);
    let ends = [low, top];
    checks::form_holds(x, &ends)
}

// The limbs, from the top down, each by its place, as the definition counts them.
fn read_limbs(line: &[u8], target: &mut [u64])
    requires { (digits_hold line.now ≡ true) × (length line.now ≡ shortest_line + 16 * length target.old) }
    ensures { target.new ≡ limbs_in (length target.old) line.now }
{
    let mut at: usize = 14;
    for i in (0..target.len()).rev() {
        target[i] = field_at(line, at, 16);
        at += 16;
    }
}

// A line read into the target: its number, and its limbs.
pub fn read_line(line: &[u8], target: &mut [u64]) -> Result<Number, Refusal>
    ensures value { result ≡ read_of (length target.old) line.now }
    ensures target_after { target.new ≡ target_after line.now target.old }
{
    let x = read_head(line)?;
    let n = target.len();
    if !checks::length_holds(x.precision, n) {
        return Err(Refusal {
            rule: Rule::Limbs,
            place: Place::Target,
        });
    }
    if checks::is_zero(x) {
        parts::clear(target);
        return Ok(x);
    }
    if !form_in(x, line, n) {
        return Err(fault(Rule::Form));
    }
    read_limbs(line, target);
    Ok(x)
}
