// The rounding step: a run of limbs is truncated to p digits in one walk over the target, and the last unit is added in a second.
//
//     carry | target, top limb first | guard | more
//       1 b b b b b b b b b b b b b b b b b b            a carry: the target moves down by a bit
//           0 0 1 b b b b b b b b b b b b b b            none: it moves up, as far as there are zeros
//           [ p digits ][ digits below: offset + spare ]
//
#![tactic(auto)]

ghost use Rattle.std.specs.Prelude.{◌≡◌, Bool, false, [], ◌∷◌, ℕ, ◌-◌, ◌*◌, ◌%◌, ◌^◌, ◌≤◌, length};
ghost use Rattle.limb.specs.Value.{value_of};
ghost use Rattle.rounding.specs.declared.Mode.{Mode};
ghost use Rattle.place.specs.Placed.{run_rule};
ghost use Rattle.place.specs.Rounded.{rounded_placed, rounded_limbs};

mod limits; // limits.rt: which runs are rounded, and which exponents are in range
mod one; // one.rt: a run of one limb by value, wherever its first digit stands
mod beside; // beside.rt: a little more or a little less than a number of the digits asked for

pub use beside::{round_above, round_below};
use kept::{is_odd, raise, reach, round_up, truncate};
use limits::{run_rule, settle, settle_limb};
use location::{locate, rounds_up, ternary};
pub use one::{round_carried, round_one, round_raised, settle_one};
use rounding::{AsMode, Mode};

// The rule by which the run is refused, or 0; the counted exponent and the ternary value of what is selected.
#[derive(Clone, Copy)]
pub struct Placed {
    pub rule: u8,
    pub exponent: u64,
    pub ternary: i8,
}

// The same, by its fields: copied whole, with the bytes between them, it waits for the stores that left it.
pub fn by_fields(placed: Placed) -> Placed
    ensures { result ≡ placed }
{
    Placed {
        rule: placed.rule,
        exponent: placed.exponent,
        ternary: placed.ternary,
    }
}

// The same, with the digits selected in one limb.
#[derive(Clone, Copy)]
pub struct PlacedLimb {
    pub placed: Placed,
    pub limb: u64,
}

// Rounds a run that rules 2 to 5 let pass, as `round_run` does: for a caller that knows so.
pub fn round_fit<M: AsMode>(
    negative: bool,
    carry: bool,
    target: &mut [u64],
    guard: u64,
    more: bool,
    unit: u64,
    precision: u64,
    mode: M,
) -> Placed
    requires { run_rule precision carry target.old unit ≡ 0 }
    ensures value { result ≡ rounded_placed (M.mode_in mode) precision negative unit carry target.old guard more }
    ensures target_after { target.new ≡ rounded_limbs (M.mode_in mode) precision negative unit carry target.old guard more }
{
    by_fields(round_fit_under(
        negative,
        carry,
        target,
        guard,
        more,
        unit,
        precision,
        mode.as_mode(),
    ))
}

// The same under a mode.
fn round_fit_under(
    negative: bool,
    carry: bool,
    target: &mut [u64],
    guard: u64,
    more: bool,
    unit: u64,
    precision: u64,
    mode: Mode,
) -> Placed
    requires { run_rule precision carry target.old unit ≡ 0 }
    ensures value { result ≡ rounded_placed mode precision negative unit carry target.old guard more }
    ensures target_after { target.new ≡ rounded_limbs mode precision negative unit carry target.old guard more }
{
    let spare = 64 * (target.len() as u64) - precision;
    let offset = reach(carry, target);
    let at = locate(target[0], guard, offset + spare, more);
    truncate(carry, target, guard, offset, spare);
    let up = rounds_up(mode, negative, at, is_odd(target, spare));
    let over = round_up(target, spare, up);
    settle(
        target,
        unit + precision + offset + spare + (over as u64),
        ternary(negative, at, up),
    )
}

// Rounds a target of which nothing lies below the digits kept, as `round_fit` does under every mode and sign.
pub fn round_exact(target: &mut [u64], unit: u64, precision: u64) -> Placed
    requires { (run_rule precision false target.old unit ≡ 0) × (value_of target.old % 2 ^ (64 * length target.old - precision) ≡ 0) }
    ensures by_index { (mode : Mode) (negative : Bool) → result ≡ rounded_placed mode precision negative unit false target.old 0 false }
    ensures by_index_2 { (mode : Mode) (negative : Bool) → target.new ≡ rounded_limbs mode precision negative unit false target.old 0 false }
{
    let spare = 64 * (target.len() as u64) - precision;
    let offset = reach(false, target);
    truncate(false, target, 0, offset, spare);
    settle(target, unit + precision + offset + spare, 0)
}

// Rounds a run of one limb whose first digit is 1 as `round_fit` does, by value, so that the quick ways keep it in registers: it stands in each
// of them, since a call would take what it tells through memory.
#[inline(always)]
pub fn round_limb<M: AsMode>(
    negative: bool,
    limb: u64,
    guard: u64,
    more: bool,
    unit: u64,
    precision: u64,
    mode: M,
) -> PlacedLimb
    requires { (run_rule precision false (limb ∷ []) unit ≡ 0) × (2 ^ 63 ≤ limb) }
    ensures placed_value { result.placed ≡ rounded_placed (M.mode_in mode) precision negative unit false (limb ∷ []) guard more }
    ensures limb_value { result.limb ∷ [] ≡ rounded_limbs (M.mode_in mode) precision negative unit false (limb ∷ []) guard more }
{
    round_limb_under(negative, limb, guard, more, unit, precision, mode.as_mode())
}

// The same under a mode.
#[inline(always)]
fn round_limb_under(
    negative: bool,
    limb: u64,
    guard: u64,
    more: bool,
    unit: u64,
    precision: u64,
    mode: Mode,
) -> PlacedLimb
    requires { (run_rule precision false (limb ∷ []) unit ≡ 0) × (2 ^ 63 ≤ limb) }
    ensures placed_value { result.placed ≡ rounded_placed mode precision negative unit false (limb ∷ []) guard more }
    ensures limb_value { result.limb ∷ [] ≡ rounded_limbs mode precision negative unit false (limb ∷ []) guard more }
{
    let spare = 64 - precision;
    let at = locate(limb, guard, 64 + spare, more);
    let kept = (limb >> spare) << spare;
    let up = rounds_up(mode, negative, at, (kept >> spare) % 2 == 1);
    let raised = raise(kept, spare, up);
    settle_limb(
        raised.limb,
        unit + precision + 64 + spare + (raised.over as u64),
        ternary(negative, at, up),
    )
}

// Rounds a run to `precision` digits: the target is left with them at its top, and the spare bits 0. The guard's last digit has the
// counted weight `unit`, and `more` says that something lies below it. By rules 2 to 5 a run is refused and the target stays; by 6 and
// 7 the selected exponent is out of range and the target is cleared.
pub fn round_run<M: AsMode>(
    negative: bool,
    carry: bool,
    target: &mut [u64],
    guard: u64,
    more: bool,
    unit: u64,
    precision: u64,
    mode: M,
) -> Placed
    ensures value { result ≡ rounded_placed (M.mode_in mode) precision negative unit carry target.old guard more }
    ensures target_after { target.new ≡ rounded_limbs (M.mode_in mode) precision negative unit carry target.old guard more }
{
    round_run_under(
        negative,
        carry,
        target,
        guard,
        more,
        unit,
        precision,
        mode.as_mode(),
    )
}

// The same under a mode.
fn round_run_under(
    negative: bool,
    carry: bool,
    target: &mut [u64],
    guard: u64,
    more: bool,
    unit: u64,
    precision: u64,
    mode: Mode,
) -> Placed
    ensures value { result ≡ rounded_placed mode precision negative unit carry target.old guard more }
    ensures target_after { target.new ≡ rounded_limbs mode precision negative unit carry target.old guard more }
{
    let rule = run_rule(precision, carry, target, unit);
    if rule != 0 {
        return Placed {
            rule,
            exponent: 0,
            ternary: 0,
        };
    }
    round_fit(negative, carry, target, guard, more, unit, precision, mode)
}
