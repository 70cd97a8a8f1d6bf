// Refusals 1 to 5 of a call: one in which every test holds is told at once, any other by the tests in their order.
// The second way has numbers and slices of its own, so that on the first they need not stand in memory.
#![tactic(auto)]

ghost use Rattle.std.specs.Prelude.{◌≡◌, true, false, ◌&&◌, [], ◌≤◌, ◌<◌, length};
ghost use Rattle.checks.specs.Number.{is_zero_kind, operand_of};
ghost use Rattle.checks.specs.Check.{accepted, mode_holds, exponent_holds, top_bit_holds, spare_bits_hold, pair_refusal, single_refusal, compared_refusal, converted_refusal, alone_refusal};
ghost use Rattle.checks.specs.Passes.{TargetPasses, Passes};
ghost use Rattle.admission.specs.Sizes.{SizesPass};

use checks::{Number, Refusal};

// Whether a target passes tests 2 and 3.
fn target_passes(p: u64, n: usize) -> bool
    ensures { (result ≡ true → TargetPasses p n) × (result ≡ false → TargetPasses p n → ⊥) }
{
    if !checks::precision_holds(p) {
        return false;
    }
    n as u64 == (p + 63) / 64
}

// Whether the precisions and lengths of two operands and a target pass tests 2 and 3.
pub fn sizes_pass(a: u64, m: usize, b: u64, k: usize, p: u64, n: usize) -> bool
    ensures { (result ≡ true → SizesPass a m b k p n) × (result ≡ false → SizesPass a m b k p n → ⊥) }
{
    if !target_passes(p, n) {
        return false;
    }
    if !target_passes(a, m) {
        return false;
    }
    target_passes(b, k)
}

// Whether the limbs of a regular number pass test 5.
fn limbs_pass(p: u64, l: &[u64]) -> bool
    requires { 0 < length l.now }
    ensures { result ≡ top_bit_holds l.now && spare_bits_hold p l.now }
{
    if l[l.len() - 1] < checks::FIRST_DIGIT {
        return false;
    }
    checks::low_holds(p, l[0])
}

// Whether an operand that passes tests 2 and 3 passes tests 4 and 5.
fn value_passes(x: Number, l: &[u64]) -> bool
    requires { TargetPasses x.precision (length l.now) }
    ensures { (result ≡ true → Passes (operand_of x l.now)) × (result ≡ false → Passes (operand_of x l.now) → ⊥) }
{
    if !checks::exponent_holds(x) {
        return false;
    }
    if checks::is_zero(x) {
        return true;
    }
    limbs_pass(x.precision, l)
}

// Whether an operand passes tests 2 to 5.
pub fn passes(x: Number, l: &[u64]) -> bool
    ensures { (result ≡ true → Passes (operand_of x l.now)) × (result ≡ false → Passes (operand_of x l.now) → ⊥) }
{
    if !target_passes(x.precision, l.len()) {
        return false;
    }
    value_passes(x, l)
}

// Whether a number is regular and passes test 4.
fn is_ranged(x: Number) -> bool
    ensures { result ≡ true → (is_zero_kind x.kind ≡ false) × (exponent_holds (operand_of x []) ≡ true) }
{
    let e = checks::counted_exponent(x.exponent);
    (checks::LEAST_EXPONENT <= e) & (e <= checks::MOST_EXPONENT) & !checks::is_zero(x)
}

// Whether an operand passes tests 2 to 5 and is regular. Between two tests of fields a limb is read, so that they stay two.
pub fn regular_passes(x: Number, l: &[u64]) -> bool
    ensures { result ≡ true → Passes (operand_of x l.now) × (is_zero_kind x.kind ≡ false) }
{
    if !target_passes(x.precision, l.len()) {
        return false;
    }
    if l[l.len() - 1] < checks::FIRST_DIGIT {
        return false;
    }
    if !is_ranged(x) {
        return false;
    }
    checks::low_holds(x.precision, l[0])
}

// Whether a mode passes, and a target passes tests 2 and 3 and is of one limb with two digits to spare.
pub fn narrow_passes(mode: u8, p: u64, n: usize) -> bool
    ensures { result ≡ true → (mode_holds mode ≡ true) × TargetPasses p n × (p ≤ 62) }
{
    if checks::MOST_MODE < mode {
        return false;
    }
    if (p < checks::LEAST_PRECISION) | (62 < p) {
        return false;
    }
    n == 1
}

// Whether a mode and an operand pass.
fn one_passes(mode: u8, x: Number, xl: &[u64]) -> bool
    ensures { result ≡ true → (mode_holds mode ≡ true) × Passes (operand_of x xl.now) }
{
    if checks::MOST_MODE < mode {
        return false;
    }
    passes(x, xl)
}

// Whether two operands that pass tests 2 and 3 pass tests 4 and 5.
fn values_pass(x: Number, xl: &[u64], y: Number, yl: &[u64]) -> bool
    requires { TargetPasses x.precision (length xl.now) × TargetPasses y.precision (length yl.now) }
    ensures { result ≡ true → Passes (operand_of x xl.now) × Passes (operand_of y yl.now) }
{
    if !value_passes(x, xl) {
        return false;
    }
    value_passes(y, yl)
}

// Whether a mode, two operands and a target pass, where their sizes do.
fn pair_passes(mode: u8, x: Number, xl: &[u64], y: Number, yl: &[u64], p: u64, n: usize) -> bool
    requires { SizesPass x.precision (length xl.now) y.precision (length yl.now) p n }
    ensures { result ≡ true → pair_refusal mode (operand_of x xl.now) (operand_of y yl.now) p n ≡ accepted }
{
    if checks::MOST_MODE < mode {
        return false;
    }
    values_pass(x, xl, y, yl)
}

// Whether a mode, an operand and a target pass.
fn single_passes(mode: u8, x: Number, xl: &[u64], p: u64, n: usize) -> bool
    ensures { result ≡ true → single_refusal mode (operand_of x xl.now) p n ≡ accepted }
{
    if !target_passes(p, n) {
        return false;
    }
    one_passes(mode, x, xl)
}

// Refusals 1 to 5 of two operands under a mode, with a target of p digits in n limbs, where their sizes pass: 1, 4 and 5 are left.
pub fn check_pair(
    mode: u8,
    x: Number,
    xl: &[u64],
    y: Number,
    yl: &[u64],
    p: u64,
    n: usize,
) -> Result<(), Refusal>
    requires { SizesPass x.precision (length xl.now) y.precision (length yl.now) p n }
    ensures { result ≡ pair_refusal mode (operand_of x xl.now) (operand_of y yl.now) p n }
{
    if pair_passes(mode, x, xl, y, yl, p, n) {
        return Ok(());
    }
    refusals::refuse(
        mode,
        checks::copied(x),
        &xl[..],
        checks::copied(y),
        &yl[..],
        p,
        n,
    )
}

// The same of one operand and a target.
pub fn check_single(mode: u8, x: Number, xl: &[u64], p: u64, n: usize) -> Result<(), Refusal>
    ensures { result ≡ single_refusal mode (operand_of x xl.now) p n }
{
    if single_passes(mode, x, xl, p, n) {
        return Ok(());
    }
    let alike = checks::copied(x);
    refusals::refuse(mode, alike, xl, alike, xl, p, n)
}

// Refusals 1 to 5 of one operand under a mode, without a target.
pub fn check_converted(mode: u8, x: Number, xl: &[u64]) -> Result<(), Refusal>
    ensures { result ≡ converted_refusal mode (operand_of x xl.now) }
{
    if one_passes(mode, x, xl) {
        return Ok(());
    }
    let alike = checks::copied(x);
    refusals::refuse_operands(mode, alike, xl, alike, xl)
}

// Refusals 2 to 5 of one operand.
pub fn check_alone(x: Number, xl: &[u64]) -> Result<(), Refusal>
    ensures { result ≡ alone_refusal (operand_of x xl.now) }
{
    if passes(x, xl) {
        return Ok(());
    }
    let alike = checks::copied(x);
    refusals::refuse_operands(0, alike, xl, alike, xl)
}

// Refusals 2 to 5 of two operands.
pub fn check_compared(x: Number, xl: &[u64], y: Number, yl: &[u64]) -> Result<(), Refusal>
    ensures { result ≡ compared_refusal (operand_of x xl.now) (operand_of y yl.now) }
{
    if passes(x, xl) && passes(y, yl) {
        return Ok(());
    }
    refusals::refuse_operands(0, checks::copied(x), &xl[..], checks::copied(y), &yl[..])
}
