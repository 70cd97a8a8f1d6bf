// Two limbs further apart than the answer is long: the larger stands in the target, and a little more, or a little less, rounds as the other does. A little less that is taken up again leaves the larger as it is.
ghost use Rattle.std.specs.Prelude.{◌≡◌, true, false, cond, [], ◌∷◌, ℕ, ◌+◌, ◌<◌, length};
ghost use Rattle.rounding.specs.Mode.{way};
ghost use Rattle.location.specs.declared.Location.TheVariants.{Upper};
ghost use Rattle.location.specs.Location.{goes_up};
ghost use Rattle.checks.specs.Room.{Room};
ghost use Rattle.wide.specs.Filling.{Offered, Fills};
ghost use Rattle.short.specs.Short.{Answers, Tells};

use crate::close::write;
use location::{Location, rounds_up};
use place::{Placed, by_fields};
use rounding::Mode;
use settle::Pair;
use wide::{Attempt, Filled};

// Fills the target with the larger, and zeros; or with one less.
fn fill(p: u64, pair: Pair, u: u64, target: &mut [u64]) -> Filled
    requires { Room p (length target.old) × (2 < length target.old) × (p + 1 < pair.gap) }
    ensures { (length target.new ≡ length target.old) × (result.depth ≡ 1) × ((v : ℕ) → Fills p pair (u ∷ []) (v ∷ []) target.new (Some result)) }
{
    write(target, u, 0);
    let guard = wide::beside(pair.same, target);
    Filled {
        carry: false,
        guard,
        more: true,
        depth: 1,
    }
}

// One, or none.
fn one(some: bool) -> u64
    ensures { result ≡ cond some 1 0 }
{
    if some { 1 } else { 0 }
}

// Rounds what fills the target.
fn round_filled(
    mode: Mode,
    negative: bool,
    p: u64,
    pair: Pair,
    u: u64,
    target: &mut [u64],
) -> Placed
    requires { Room p (length target.old) × (2 < length target.old) × ((v : ℕ) × Offered pair (u ∷ []) (v ∷ [])) × (p + 1 < pair.gap) }
    ensures { (length target.new ≡ length target.old) × ((v : ℕ) → Answers mode p pair u v negative target.new result) }
{
    let filled = fill(p, pair, u, target);
    place::round_fit(
        negative,
        filled.carry,
        target,
        filled.guard,
        filled.more,
        pair.top - 64 * (target.len() as u64 + 1),
        p,
        mode,
    )
}

// Whether a little less than the larger is taken up to it again.
fn is_restored(mode: Mode, negative: bool, pair: Pair) -> bool
    ensures { result ≡ true → (pair.same ≡ false) × (goes_up (way mode negative) Upper false ≡ true) }
{
    if pair.same {
        return false;
    }
    rounds_up(mode, negative, Location::Upper, false)
}

// Rounds the same, at once where the larger is left as it is.
fn round(mode: Mode, negative: bool, p: u64, pair: Pair, u: u64, target: &mut [u64]) -> Placed
    requires { Room p (length target.old) × (2 < length target.old) × ((v : ℕ) × Offered pair (u ∷ []) (v ∷ [])) × (p + 1 < pair.gap) }
    ensures { (length target.new ≡ length target.old) × ((v : ℕ) → Answers mode p pair u v negative target.new result) }
{
    if is_restored(mode, negative, pair) {
        write(target, u, 0);
        return place::round_below(negative, pair.top);
    }
    round_filled(mode, negative, p, pair, u, target)
}

// The sum of u and any limb so far below it.
pub fn add_apart(
    mode: Mode,
    negative: bool,
    p: u64,
    pair: Pair,
    swapped: bool,
    u: u64,
    target: &mut [u64],
) -> Attempt
    requires { Room p (length target.old) × (2 < length target.old) × ((v : ℕ) × Offered pair (u ∷ []) (v ∷ [])) × (p + 1 < pair.gap) }
    ensures { (length target.new ≡ length target.old) × ((v : ℕ) → Tells mode p pair u v negative swapped target.new result) }
{
    let placed = round(mode, negative, p, pair, u, target);
    Attempt {
        negative,
        placed: by_fields(placed),
        depth: 1,
        first: one(!swapped),
        second: one(swapped),
    }
}
