// How many digits a window shows.
ghost use Rattle.std.specs.Prelude.{◌≡◌, ◌*◌, ◌^◌, ◌<◌, is_some, length};
ghost use Rattle.limb.specs.Carry.{bit};
ghost use Rattle.walk.specs.Window.{Fits};
ghost use Rattle.remnant.specs.Digits.{ShowsDigits};

use walk::Window;

// The digit of the carry.
#[tactic(auto, unfolding(limb::specs::Carry::bit))]
pub fn carry_digits(w: Window) -> u64
    ensures { result ≡ bit w.carry }
{
    if w.carry { 1 } else { 0 }
}

// The digits of the guard.
#[tactic(auto, unfolding(limb::specs::Carry::bit))]
pub fn guard_digits(w: Window) -> u64
    ensures { result ≡ 64 * bit (is_some w.guard) }
{
    match w.guard {
        Some(_) => 64,
        None => 0,
    }
}

// How many digits stand in carry, target and guard.
pub fn digits_of(w: Window, target: &[u64]) -> u64
    requires { Fits w target.now × (length target.now < 2 ^ 50) }
    ensures { ShowsDigits w target.now result }
{
    let filled = w.filled;
    let kept = 64 * (filled as u64) + guard_digits(w);
    if w.carry {
        return kept + 1;
    }
    if filled == 0 {
        return 0;
    }
    let n = target.len();
    let top = target[n - 1];
    kept - (u64::leading_zeros(top) as u64)
}
