// Whether the first digits are all 1.
ghost use Rattle.std.specs.Prelude.{◌≡◌, suc, ◌+◌, ◌-◌, ◌*◌, ◌/◌, ◌^◌, ◌≤◌, ◌<◌, eqb, length, drop};
ghost use Rattle.limb.specs.Value.{value_of};
ghost use Rattle.walk.specs.Window.{Fits};
ghost use Rattle.remnant.specs.Ones.{OnesFirst};

use crate::digits::{carry_digits, digits_of, guard_digits};
use walk::Window;

// Whether a limb without its lowest `skip` digits is `count` ones, and no more.
fn limb_ones(limb: u64, skip: u64, count: u64) -> bool
    requires { (skip < 64) × (count ≤ 64) }
    ensures { result ≡ eqb (suc (limb / 2 ^ skip)) (2 ^ count) }
{
    let shown = limb >> skip;
    if count == 64 {
        return shown == 18446744073709551615;
    }
    shown == (1 << count) - 1
}

// Whether the limbs from a place on are `count` ones: as many as fill them, but for some of the top limb.
fn ones_from(target: &[u64], from: usize, count: u64) -> bool
    requires { (from ≤ length target.now) × (count ≤ 64 * (length target.now - from)) × (64 * (length target.now - from) < count + 64) }
    ensures { result ≡ eqb (suc (value_of (drop from target.now))) (2 ^ count) }
{
    let top = from + (count / 64) as usize;
    for limb in &target[from..top] {
        if *limb != 18446744073709551615 {
            return false;
        }
    }
    limb_ones(parts::limb_at(target, top), 0, count % 64)
}

// The same of the limbs from a place on without the lowest `skip` digits; `count` are there with them.
fn ones_above(target: &[u64], from: usize, skip: u64, count: u64) -> bool
    requires { (from ≤ length target.now) × (count ≤ 64 * (length target.now - from)) × (64 * (length target.now - from) < count + 64) × (skip < 64) × (skip ≤ count) }
    ensures { result ≡ eqb (suc (value_of (drop from target.now) / 2 ^ skip)) (2 ^ (count - skip)) }
{
    let limb = parts::limb_at(target, from);
    if count <= 64 {
        return limb_ones(limb, skip, count - skip);
    }
    if !limb_ones(limb, skip, 64 - skip) {
        return false;
    }
    ones_from(target, from + 1, count - 64)
}

// Whether the first `count` digits shown are all 1.
//
//     digits     carry | limbs filled  ..  | guard
//                first                 low .. 0
//
pub fn ones_first(w: Window, target: &[u64], count: u64) -> bool
    requires { Fits w target.now × (length target.now < 2 ^ 50) }
    ensures { OnesFirst w target.now count result }
{
    let digits = digits_of(w, target);
    if count == 0 {
        return true;
    }
    if digits < count {
        return false;
    }
    let low = digits - count;
    let below = guard_digits(w);
    let filled = w.filled;
    let inside = digits - below - carry_digits(w);
    let stop = target.len() - filled;
    if inside + 64 <= 64 * (filled as u64) {
        return false;
    }
    if low < below {
        if !limb_ones(w.guard.unwrap_or(0), low, 64 - low) {
            return false;
        }
        return ones_from(target, stop, inside);
    }
    let place = low - below;
    let limbs = place / 64;
    ones_above(
        target,
        stop + limbs as usize,
        place % 64,
        inside - 64 * limbs,
    )
}
