// Add, subtract, re-round.
ghost use Rattle.std.specs.Prelude.{◌≡◌, true, false, ℕ, ◌≤◌, ◌<◌, List, length};
ghost use Rattle.numbers.specs.Operand.{Operand, WellFormed};
ghost use Rattle.rounding.specs.declared.Mode.{Mode};
ghost use Rattle.rounding.specs.Answer.{Answer};
ghost use Rattle.depth.specs.Depth.{plus, minus};
ghost use Rattle.checks.specs.Number.{is_zero_kind, operand_of};
ghost use Rattle.checks.specs.Held.{formed};
ghost use Rattle.checks.specs.Check.{accepted, pair_refusal};
ghost use Rattle.admission.specs.Sizes.{SizesPass};
ghost use Rattle.place.specs.Placed.{placed_of};
ghost use Rattle.reports.specs.Signed.{Signed};
ghost use Rattle.reports.specs.Ranged.{Ranged};
ghost use Rattle.reports.specs.LaidOut.{sum_in};
ghost use Rattle.reports.specs.Summed.{sum_of, Reported, Summed, Rerounded};
ghost use Rattle.checks.specs.Room.{Room};
ghost use Rattle.narrow.specs.Looked.{Looked};

use checks::{Formed, Number, Regular, copied};
use narrow::Sight;
use reports::{LaidOut, Sum};
use rounding::Mode;
use wide::Attempt;

// Two zeros: nothing is read.
fn zeros(mode: Mode, x: Number, y: Number, p: u64, target: &mut [u64]) -> Sum
    requires { Room p (length target.old) }
    ensures { (xl yl : List ℕ) → (operand_of x xl).is_zero ≡ true → (operand_of y yl).is_zero ≡ true → Reported plus mode p (operand_of x xl) (operand_of y yl) target.new result }
{
    parts::clear(target);
    let sign = reports::zero_sign(mode, x.negative, y.negative);
    reports::zero(sign, p, 0, 0, 0)
}

// Where checks 1 to 5 pass.
fn summed(mode: Mode, x: Formed, y: Formed, p: u64, target: &mut [u64]) -> Sum
    requires { Room p (length target.old) }
    ensures { Reported plus mode p (formed x.entry) (formed y.entry) target.new result }
{
    if checks::is_zero(x.number) {
        if checks::is_zero(y.number) {
            return zeros(mode, x.number, y.number, p, target);
        }
        let second = Regular {
            number: y.number,
            limbs: y.limbs,
        };
        return reports::exchanged(general::single(mode, second, p, target));
    }
    let first = Regular {
        number: x.number,
        limbs: x.limbs,
    };
    if checks::is_zero(y.number) {
        return general::single(mode, first, p, target);
    }
    let second = Regular {
        number: y.number,
        limbs: y.limbs,
    };
    general::both(mode, first, second, p, target)
}

// Whether two numbers are regular, and the digits are so few that their first column may tell all.
fn is_narrow(p: u64, x: Number, y: Number) -> bool
    ensures { result ≡ true → (p ≤ 62) × (is_zero_kind x.kind ≡ false) × (is_zero_kind y.kind ≡ false) }
{
    (p <= 62) & !checks::is_zero(x) & !checks::is_zero(y)
}

// What an attempt tells, as it is reported.
fn reported(told: Attempt, p: u64) -> Sum
    requires { Ranged told.placed }
    ensures { (a : Answer) → Signed told.negative a → told.placed ≡ placed_of a → result ≡ sum_of a p told.depth told.first told.second }
{
    let placed = told.placed;
    reports::answered(
        placed,
        told.negative,
        p,
        told.depth,
        told.first,
        told.second,
    )
}

// What a look at the first column tells, as it is reported.
fn told(sight: Sight, p: u64, target: &mut [u64]) -> Sum
    requires { (0 < length target.old) × Ranged sight.seen.placed }
    ensures { (length target.new ≡ length target.old) × ((o : Mode) (x y : Operand) → Room p (length target.old) → p ≤ 62 → Looked o p x y sight → Reported plus o p x y target.new result) }
{
    let seen = sight.seen;
    let placed = seen.placed;
    target[0] = seen.limb;
    reports::answered(placed, seen.negative, p, 1, sight.first, sight.second)
}

// x + y, rounded to p digits: at once where the first column fixes it, or the columns that fill the target. The first column was looked at already
// where the signs are alike, or where they are not, as `like` says: a flag and not a function for each, so that the sum stands once in the archive. Any other way has numbers and slices of its own, so that these need not stand in
// memory; and the sizes are tested where the call arrives, so that the words of a slice are not copied as pairs on the way.
fn add_any<'a>(
    mode: u8,
    x: Number,
    xl: &'a [u64],
    y: Number,
    yl: &'a [u64],
    p: u64,
    target: &mut [u64],
    like: bool,
) -> Sum
    requires { SizesPass x.precision (length xl.now) y.precision (length yl.now) p (length target.old) }
    ensures { Summed plus mode x xl.now y yl.now p target.old target.new result }
{
    let refusal = admission::check_pair(mode, x, xl, y, yl, p, target.len());
    if let Err(cause) = refusal {
        return reports::refused(cause, 0, 0, 0);
    }
    let known = Mode::try_from(mode).unwrap();
    if (x.negative == y.negative) != like {
        if is_narrow(p, x, y) {
            let first = Regular {
                number: x,
                limbs: xl,
            };
            let second = Regular {
                number: y,
                limbs: yl,
            };
            if let Some(sight) = narrow::look(known, first, second, p) {
                return told(sight, p, target);
            }
        }
    }
    if let Some(attempt) = ways::attempt(known, x, xl, y, yl, p, target) {
        return reported(attempt, p);
    }
    let first = Formed {
        number: copied(x),
        limbs: &xl[..],
    };
    let second = Formed {
        number: copied(y),
        limbs: &yl[..],
    };
    reports::retold(summed(known, first, second, p, target))
}

// The same, laid out: one call for add and subtract, whose answer goes through memory.
fn add_sized<'a>(
    mode: u8,
    x: Number,
    xl: &'a [u64],
    y: Number,
    yl: &'a [u64],
    p: u64,
    target: &mut [u64],
    like: bool,
) -> LaidOut
    requires { SizesPass x.precision (length xl.now) y.precision (length yl.now) p (length target.old) }
    ensures { Summed plus mode x xl.now y yl.now p target.old target.new (sum_in result) }
{
    LaidOut::of(add_any(mode, x, xl, y, yl, p, target, like))
}

// Where the sizes do not pass: the first test that fails, by the tests in their order. Of the target its length is enough.
fn refuse_sizes(mode: u8, x: Number, xl: &[u64], y: Number, yl: &[u64], p: u64, n: usize) -> Sum
    requires { SizesPass x.precision (length xl.now) y.precision (length yl.now) p n → ⊥ }
    ensures { (target : List ℕ) → length target ≡ n → Summed plus mode x xl.now y yl.now p target target result }
{
    let cause = refusals::refuse(mode, x, xl, y, yl, p, n).unwrap_err();
    reports::refused(cause, 0, 0, 0)
}

// Whether all tests pass, both numbers are regular, and the digits are so few that their first column may tell all.
fn is_plain(mode: u8, x: Number, xl: &[u64], y: Number, yl: &[u64], p: u64, n: usize) -> bool
    ensures { result ≡ true → (pair_refusal mode (operand_of x xl.now) (operand_of y yl.now) p n ≡ accepted) × (p ≤ 62) × (is_zero_kind x.kind ≡ false) × (is_zero_kind y.kind ≡ false) }
{
    if 62 < p {
        return false;
    }
    if !admission::regular_passes(x, xl) {
        return false;
    }
    if !admission::regular_passes(y, yl) {
        return false;
    }
    admission::narrow_passes(mode, p, n)
}

// x + y, rounded to p digits: where the signs are alike and the first column tells all, without a call.
pub fn add<'a>(
    mode: u8,
    x: Number,
    xl: &'a [u64],
    y: Number,
    yl: &'a [u64],
    p: u64,
    target: &mut [u64],
) -> Sum
    ensures { Summed plus mode x xl.now y yl.now p target.old target.new result }
{
    let n = target.len();
    if is_plain(mode, x, xl, y, yl, p, n) & (x.negative == y.negative) {
        let known = Mode::try_from(mode).unwrap();
        let first = Regular {
            number: x,
            limbs: xl,
        };
        let second = Regular {
            number: y,
            limbs: yl,
        };
        if let Some(sight) = narrow::look_like(known, first, second, p) {
            return told(sight, p, target);
        }
    }
    if !admission::sizes_pass(x.precision, xl.len(), y.precision, yl.len(), p, n) {
        return refuse_sizes(mode, copied(x), &xl[..], copied(y), &yl[..], p, n);
    }
    add_sized(
        mode,
        copied(x),
        &xl[..],
        copied(y),
        &yl[..],
        p,
        target,
        true,
    )
    .sum()
}

// x - y, rounded to p digits: the sum with the second sign turned.
pub fn subtract<'a>(
    mode: u8,
    x: Number,
    xl: &'a [u64],
    y: Number,
    yl: &'a [u64],
    p: u64,
    target: &mut [u64],
) -> Sum
    ensures { Summed minus mode x xl.now y yl.now p target.old target.new result }
{
    let turned = checks::turn_sign(y);
    let n = target.len();
    if is_plain(mode, x, xl, turned, yl, p, n) & (x.negative != turned.negative) {
        let known = Mode::try_from(mode).unwrap();
        let first = Regular {
            number: x,
            limbs: xl,
        };
        let second = Regular {
            number: turned,
            limbs: yl,
        };
        if let Some(sight) = narrow::look_unlike(known, first, second, p) {
            return told(sight, p, target);
        }
    }
    if !admission::sizes_pass(x.precision, xl.len(), turned.precision, yl.len(), p, n) {
        return refuse_sizes(mode, copied(x), &xl[..], copied(turned), &yl[..], p, n);
    }
    add_sized(
        mode,
        copied(x),
        &xl[..],
        copied(turned),
        &yl[..],
        p,
        target,
        false,
    )
    .sum()
}

// x alone, rounded to p digits, at once where the first column fixes it: reports as the addition of a zero.
pub fn reround(mode: u8, x: Number, xl: &[u64], p: u64, target: &mut [u64]) -> Sum
    ensures { Rerounded mode x xl.now p target.old target.new result }
{
    let refusal = admission::check_single(mode, x, xl, p, target.len());
    if let Err(cause) = refusal {
        return reports::refused(cause, 0, 0, 0);
    }
    let known = Mode::try_from(mode).unwrap();
    if is_narrow(p, x, x) {
        let alone = Regular {
            number: x,
            limbs: xl,
        };
        if let Some(sight) = narrow::look_alone(known, alone, p) {
            return told(sight, p, target);
        }
    }
    let alike = copied(x);
    if checks::is_zero(alike) {
        return zeros(known, alike, alike, p, target);
    }
    let alone = Regular {
        number: alike,
        limbs: xl,
    };
    general::single(known, alone, p, target)
}
