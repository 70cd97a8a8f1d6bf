// Bits of a run of limbs at any offset, and moves by bits.
#![tactic(auto)]

ghost use Rattle.std.specs.Prelude.{◌≡◌, ◌+◌, ◌-◌, ◌*◌, ◌/◌, ◌%◌, ◌^◌, ◌≤◌, ◌<◌, ◌==◌, eqb, length, take};
ghost use Rattle.std.specs.List.{list_all};
ghost use Rattle.limb.specs.Value.{value_of};
ghost use Rattle.shifts.specs.LowLimbs.{LowLimbs};

use parts::{copy, limb_at, part_from};

// The limb of two neighbours moved down by some bits.
//
//     [     high    ]  [     low     ]
//             [  the limb ][   bits  ]
//
pub fn moved(low: u64, high: u64, bits: u64) -> u64
    requires { (0 < bits) × (bits < 64) }
    ensures { result ≡ (low + 2 ^ 64 * high) / 2 ^ bits % 2 ^ 64 }
{
    (low >> bits) | (high << (64 - bits))
}

// The 64 bits from bit `bits` of limb `limbs` on, from that limb and the next.
fn window_at(s: &[u64], limbs: usize, bits: usize) -> u64
    requires { (limbs + 1 < 2 ^ 64) × (bits < 64) }
    ensures { result ≡ value_of s.now / 2 ^ (64 * limbs + bits) % 2 ^ 64 }
{
    let low = limb_at(s, limbs);
    if bits == 0 {
        low
    } else {
        let high = limb_at(s, limbs + 1);
        moved(low, high, bits as u64)
    }
}

// The 64 bits from bit k on, 0 beyond the end.
pub fn window(s: &[u64], k: usize) -> u64
    ensures { result ≡ value_of s.now / 2 ^ k % 2 ^ 64 }
{
    window_at(s, k / 64, k % 64)
}

// The lowest limbs of a run that does not end before the target.
fn copy_into(target: &mut [u64], s: &[u64])
    requires { length target.old ≤ length s.now }
    ensures { LowLimbs (length target.old) (value_of s.now) target.new }
{
    copy(target, &s[0..target.len()])
}

// The run moved down by less than a limb, window by window, 0 beyond its end.
fn windows_into(target: &mut [u64], s: &[u64], bits: usize)
    requires { bits < 64 }
    ensures { LowLimbs (length target.old) (value_of s.now / 2 ^ bits) target.new }
{
    for (i, limb) in target.iter_mut().enumerate() {
        *limb = window_at(s, i, bits);
    }
}

// The run moved down by less than a limb. As far as its limbs meet in pairs there is no end to look for, and the loop takes several limbs a turn.
// The upper limb goes up in two steps, by 1 bit and by the others: in one step the compiler would join both shifts of a pair, which is done pair
// by pair, and a move by no bit would be a shift by 64.
fn move_into(target: &mut [u64], s: &[u64], bits: usize)
    requires { bits < 64 }
    ensures { LowLimbs (length target.old) (value_of s.now / 2 ^ bits) target.new }
{
    let end = target.len().min(s.len().saturating_sub(1));
    for i in 0..end {
        target[i] = (s[i] >> bits) | ((s[i + 1] << 1) << (63 - bits));
    }
    windows_into(&mut target[end..], part_from(s, end), bits)
}

// The run moved down by k bits, into the whole target. A few limbs go window by window: what move_into does before its loop starts would
// cost more than it saves.
pub fn shift_down_into(target: &mut [u64], s: &[u64], k: usize)
    ensures { LowLimbs (length target.old) (value_of s.now / 2 ^ k) target.new }
{
    let part = part_from(s, k / 64);
    let bits = k % 64;
    if bits == 0 {
        if target.len() <= part.len() {
            copy_into(target, part);
            return;
        }
    }
    if target.len() < 8 {
        windows_into(target, part, bits);
        return;
    }
    move_into(target, part, bits)
}

// Limb i of the run moved up by k bits.
fn raised_at(s: &[u64], i: usize, k: usize) -> u64
    ensures { result ≡ value_of s.now * 2 ^ k / 2 ^ (64 * i) % 2 ^ 64 }
{
    let limbs = k / 64;
    let bits = k % 64;
    if i < limbs {
        return 0;
    }
    let from = i - limbs;
    if bits == 0 {
        return limb_at(s, from);
    }
    if from == 0 {
        return limb_at(s, 0) << bits;
    }
    window_at(s, from - 1, 64 - bits)
}

// The run moved up by k bits, into the whole target: the bits below are 0, and what passes the target's top is dropped.
pub fn shift_up_into(target: &mut [u64], s: &[u64], k: usize)
    ensures { LowLimbs (length target.old) (value_of s.now * 2 ^ k) target.new }
{
    for (i, limb) in target.iter_mut().enumerate() {
        *limb = raised_at(s, i, k);
    }
}

// Whether the lowest limbs, so many of them, are all 0. Stops at the first that is not.
fn zeros_below(s: &[u64], limbs: usize) -> bool
    ensures { result ≡ list_all (λ limb. limb == 0) (take limbs s.now) }
{
    s.iter().take(limbs).all(|limb| *limb == 0)
}

// Whether the low k bits are all 0. Looks from the lowest limb up and stops at the first that is not 0.
pub fn low_is_zero(s: &[u64], k: usize) -> bool
    ensures { result ≡ eqb (value_of s.now % 2 ^ k) 0 }
{
    let limbs = k / 64;
    let cut = 1 << (k % 64);
    zeros_below(s, limbs) && limb_at(s, limbs) % cut == 0
}
