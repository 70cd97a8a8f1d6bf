// Walk one: the digits of a run from its first on come to the top of the target, and the spare bits are cleared.
ghost use Rattle.std.specs.Prelude.{◌≡◌, false, ◌+◌, ◌-◌, ◌*◌, ◌/◌, ◌^◌, ◌≤◌, ◌<◌, length, get_or};
ghost use Rattle.limb.specs.Value.{value_of};
ghost use Rattle.shifts.specs.LowLimbs.{LowLimbs};
ghost use Rattle.kept.specs.Walk.{whole, Reaches, Holds};

// The zero digits above the first 1 of a limb.
fn zeros_above(limb: u64) -> u64
    requires { 0 < limb }
    ensures { (result < 64) × (2 ^ 63 ≤ limb * 2 ^ result) × (limb * 2 ^ result < 2 ^ 64) }
{
    u64::leading_zeros(limb) as u64
}

// How many digits of the run are left below as many digits as the target has: the guard's 64 and one more for a carry, or fewer by
// the zeros at the top.
pub fn reach(carry: bool, target: &[u64]) -> u64
    requires { (0 < length target.now) × (carry ≡ false → 0 < get_or target.now (length target.now - 1) 0) }
    ensures { Reaches carry target.now result }
{
    if carry {
        return 65;
    }
    let top = target[target.len() - 1];
    64 - zeros_above(top)
}

// One bit down, with a 1 entering at the top.
fn move_down(target: &mut [u64])
    ensures { Holds (length target.old) (((2 ^ 64) ^ length target.old + value_of target.old) / 2) target.new }
{
    let mut down = 1;
    for i in (0..target.len()).rev() {
        let limb = target[i];
        target[i] = (limb >> 1) | (down << 63);
        down = limb % 2;
    }
}

// Up by k bits, with the top k bits of the guard entering at the bottom. What passes the top is dropped.
fn move_up(target: &mut [u64], guard: u64, k: u64)
    requires { (0 < k) × (k < 64) }
    ensures { LowLimbs (length target.old) (value_of target.old * 2 ^ k + guard / 2 ^ (64 - k)) target.new }
{
    let mut up = guard >> (64 - k);
    for limb in target.iter_mut() {
        let out = *limb >> (64 - k);
        *limb = (*limb << k) | up;
        up = out;
    }
}

// The digits of the run from its first on, as many as the target has.
fn bring_up(carry: bool, target: &mut [u64], guard: u64, offset: u64)
    requires { Reaches carry target.old offset }
    ensures { Holds (length target.old) (whole carry target.old guard / 2 ^ offset) target.new }
{
    if carry {
        move_down(target);
        return;
    }
    if offset == 64 {
        return;
    }
    move_up(target, guard, 64 - offset);
}

// The lowest bits of the lowest limb become 0.
fn clear_spare(target: &mut [u64], spare: u64)
    requires { (0 < length target.old) × (spare < 64) }
    ensures { Holds (length target.old) (value_of target.old / 2 ^ spare * 2 ^ spare) target.new }
{
    target[0] = (target[0] >> spare) << spare;
}

// The run less its digits below the last kept one.
pub fn truncate(carry: bool, target: &mut [u64], guard: u64, offset: u64, spare: u64)
    requires { Reaches carry target.old offset × (0 < length target.old) × (spare < 64) }
    ensures { Holds (length target.old) (whole carry target.old guard / 2 ^ (offset + spare) * 2 ^ spare) target.new }
{
    bring_up(carry, target, guard, offset);
    clear_spare(target, spare);
}
