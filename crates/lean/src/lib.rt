// Do the least and the greatest sum round alike?
#![tactic(auto)]

ghost use Rattle.std.specs.Prelude.{◌≡◌, true, false, ◌||◌, ℕ, ◌-◌, ◌<◌};
ghost use Rattle.limb.specs.Carry.{bit};
ghost use Rattle.decide.specs.Class.{lean, enough, settled};
ghost use Rattle.remnant.specs.Rest.{RestOf};
ghost use Rattle.settle.specs.Ways.{theory_way};
ghost use Rattle.lean.specs.Leaning.{lean_is, Flags};

use remnant::Rest;
use settle::Way;
use std::cmp::Ordering;

// The sign of selected less exact, on sizes: from the tests on a remainder, and whether more lies below it.
pub fn leans(way: Way, x: Rest, more: bool) -> Ordering
    ensures { (q u d : ℕ) → Flags q u d x.zero x.half x.above x.odd → lean_is result ≡ lean (theory_way way) q u d more }
{
    if x.zero & !more {
        return Ordering::Equal;
    }
    match way {
        Way::Under => Ordering::Less,
        Way::Over => Ordering::Greater,
        Way::Near => {
            if x.above | (x.half & (more | x.odd)) {
                Ordering::Greater
            } else {
                Ordering::Less
            }
        }
    }
}

// The tests on the remainder and one more, which is no whole unit.
fn next_rest(x: Rest) -> Rest
    ensures { (result.zero ≡ false) × (result.half ≡ x.almost) × (result.above ≡ (x.half || x.above)) × (result.odd ≡ x.odd) }
{
    Rest {
        zero: false,
        half: x.almost,
        above: x.half | x.above,
        ..x
    }
}

// Whether D has the p digits to round it, and under nearest one more.
pub fn enough(way: Way, x: Rest) -> bool
    ensures { (p D : ℕ) → RestOf p D x → result ≡ enough (theory_way way) p D }
{
    match way {
        Way::Near => x.enough & !x.empty,
        Way::Under => x.enough,
        Way::Over => x.enough,
    }
}

// The least is D, and more if `least`; the greatest D, or the next unit if `next`, and more if `most`.
pub fn settled_plus(way: Way, x: Rest, least: bool, next: bool, most: bool) -> bool
    ensures { (p D : ℕ) → RestOf p D x → result ≡ settled (theory_way way) p D least (bit next) most }
{
    if !enough(way, x) {
        return false;
    }
    let low = leans(way, x, least);
    if next {
        if x.ones {
            return false;
        }
        return low == leans(way, next_rest(x), most);
    }
    low == leans(way, x, most)
}

// The least lies just above the unit below D; the greatest is D, and more if `most`. It tests neither a next unit nor what the least has, so it stands on its own.
pub fn settled_minus(way: Way, x: Rest, most: bool) -> bool
    ensures { (p D : ℕ) → RestOf p D x → 0 < p → result ≡ settled (theory_way way) p (D - 1) true 1 most }
{
    if !enough(way, x) {
        return false;
    }
    if x.zero {
        return false;
    }
    match way {
        Way::Under => true,
        Way::Over => true,
        Way::Near => !(x.half & (most | x.odd)),
    }
}
