// Digits that lie inside a half: no carry and no borrow from below changes what is selected above them.
ghost use Rattle.std.specs.Prelude.{◌≡◌, true, ◌+◌, ◌-◌, ◌%◌, ◌^◌, ◌≤◌, ◌<◌};

// The half of the unit above the last `drop` digits.
fn half_of(drop: u64) -> u64
    requires { (0 < drop) × (drop ≤ 64) }
    ensures { result ≡ 2 ^ (drop - 1) }
{
    1 << (drop - 1)
}

// Whether the last `drop` digits of a limb, the first of them left out, are neither all zeros nor all ones.
pub fn lies_inside(low: u64, drop: u64) -> bool
    requires { (0 < drop) × (drop ≤ 64) }
    ensures { result ≡ true → (1 ≤ low % 2 ^ (drop - 1)) × (low % 2 ^ (drop - 1) + 1 < 2 ^ (drop - 1)) }
{
    let half = half_of(drop);
    let rest = low % half;
    (0 < rest) & (rest < half - 1)
}
