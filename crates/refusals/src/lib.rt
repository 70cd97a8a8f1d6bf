// Refusals 1 to 5 in their one order: the first rule that is broken, and its first place.
#![tactic(auto)]

ghost use Rattle.std.specs.Prelude.{◌≡◌, length};
ghost use Rattle.checks.specs.Number.{operand_of};
ghost use Rattle.checks.specs.Check.{first_refusal, pair_refusal};
ghost use Rattle.refusals.specs.Judged.{judged_of, judged_target, place_tests, refusal_of};

use checks::{Number, Place, Refusal, Rule, refuse_unless};

// What tests 2 to 5 say of an operand or a target: true where the test holds.
#[derive(Clone, Copy)]
struct Judged {
    precision: bool,
    limbs: bool,
    exponent: bool,
    form: bool,
}

fn judge(x: Number, l: &[u64]) -> Judged
    ensures { result ≡ judged_of (operand_of x l.now) }
{
    Judged {
        precision: checks::precision_holds(x.precision),
        limbs: checks::length_holds(x.precision, l.len()),
        exponent: checks::exponent_holds(x),
        form: checks::form_holds(x, l),
    }
}

fn judge_target(p: u64, n: usize) -> Judged
    ensures { result ≡ judged_target p n }
{
    Judged {
        precision: checks::precision_holds(p),
        limbs: checks::length_holds(p, n),
        exponent: true,
        form: true,
    }
}

// The first place where a rule is broken.
#[tactic(auto, using(crate::proofs::Places::places_chained))]
fn refuse_places(rule: Rule, first: bool, second: bool, target: bool) -> Result<(), Refusal>
    ensures { result ≡ first_refusal (place_tests rule first second target) }
{
    refuse_unless(first, rule, Place::First)?;
    refuse_unless(second, rule, Place::Second)?;
    refuse_unless(target, rule, Place::Target)
}

// The first rule that is broken, and its first place.
#[tactic(auto, using(crate::proofs::Places::refusal_by_place))]
fn first_refusal(mode: bool, x: Judged, y: Judged, t: Judged) -> Result<(), Refusal>
    ensures { result ≡ refusal_of mode x y t }
{
    refuse_unless(mode, Rule::Mode, Place::Call)?;
    refuse_places(Rule::Precision, x.precision, y.precision, t.precision)?;
    refuse_places(Rule::Limbs, x.limbs, y.limbs, t.limbs)?;
    refuse_places(Rule::Exponent, x.exponent, y.exponent, true)?;
    refuse_places(Rule::Form, x.form, y.form, true)
}

// The refusal of two operands under a mode, which is its number, since one above 3 is refused, with a target of p digits in n limbs. A call
// without a second operand or a target hands the first operand over again: it is named for what it breaks before they are.
pub fn refuse(
    mode: u8,
    x: Number,
    xl: &[u64],
    y: Number,
    yl: &[u64],
    p: u64,
    n: usize,
) -> Result<(), Refusal>
    ensures { result ≡ pair_refusal mode (operand_of x xl.now) (operand_of y yl.now) p n }
{
    let target = judge_target(p, n);
    first_refusal(
        mode <= checks::MOST_MODE,
        judge(x, xl),
        judge(y, yl),
        target,
    )
}

// The refusal of two operands under a mode, with no target.
pub fn refuse_operands(
    mode: u8,
    x: Number,
    xl: &[u64],
    y: Number,
    yl: &[u64],
) -> Result<(), Refusal>
    ensures { result ≡ pair_refusal mode (operand_of x xl.now) (operand_of y yl.now) x.precision (length xl.now) }
{
    refuse(mode, x, xl, y, yl, x.precision, xl.len())
}
