// Two columns, by value.
//
//     larger   [ limb     ]
//     other        [ limb     ]
//              [ high     ][ low      ]
//
#![tactic(auto)]

ghost use Rattle.std.specs.Prelude.{◌≡◌, true, false, ◌+◌, ◌-◌, ◌*◌, ◌%◌, ◌^◌, ◌≤◌, ◌<◌};
ghost use Rattle.twolimbs.specs.Two.{head_in, Brought};

use limb::FIRST_DIGIT;

// What stands in two columns, and the carry out of them.
#[derive(Clone, Copy)]
pub struct Head {
    pub carry: bool,
    pub high: u64,
    pub low: u64,
}

// A limb that begins `gap` digits below the top.
pub fn columns(limb: u64, gap: u64) -> Head
    requires { gap < 64 }
    ensures { (head_in (2 ^ 64) false result.high result.low ≡ limb * 2 ^ (64 - gap)) × (result.low % 2 ≡ 0) }
{
    let low = (limb << 1) << (63 - gap);
    Head {
        carry: false,
        high: limb >> gap,
        low: low,
    }
}

// A limb at the top, and two columns more.
pub fn sum(limb: u64, high: u64, low: u64) -> Head
    ensures { (head_in (2 ^ 64) result.carry result.high result.low ≡ limb * 2 ^ 64 + head_in (2 ^ 64) false high low) × (result.low ≡ low) }
{
    let s = limb::add_carry(limb, high, false);
    Head {
        carry: s.carry,
        high: s.limb,
        low: low,
    }
}

// Two columns, less two columns.
pub fn difference(first: Head, second: Head) -> Head
    requires { head_in (2 ^ 64) false second.high second.low ≤ head_in (2 ^ 64) false first.high first.low }
    ensures { (result.carry ≡ false) × (head_in (2 ^ 64) false result.high result.low ≡ head_in (2 ^ 64) false first.high first.low - head_in (2 ^ 64) false second.high second.low) }
{
    let l = limb::sub_borrow(first.low, second.low, false);
    let h = limb::sub_borrow(first.high, second.high, l.carry);
    Head {
        carry: false,
        high: h.limb,
        low: l.limb,
    }
}

// The digits from the first on, at the top of two limbs, and the exponent that goes along.
#[derive(Clone, Copy)]
pub struct Normal {
    pub high: u64,
    pub low: u64,
    pub exponent: u64,
}

// Moved up by the zeros above the first digit.
fn raise(high: u64, low: u64, top: u64) -> Normal
    requires { (0 < high) × (64 ≤ top) }
    ensures { Brought (head_in (2 ^ 64) false high low) top result }
{
    let zeros = u64::leading_zeros(high) as u64;
    let entering = (low >> 1) >> (63 - zeros);
    let moved = high << zeros;
    let left = low << zeros;
    Normal {
        high: moved | entering,
        low: left,
        exponent: top - zeros,
    }
}

// The digits of two columns. A carry moves them down by one: then none of them stands in the last place.
pub fn normalize(carry: bool, high: u64, low: u64, top: u64) -> Normal
    requires { (0 < head_in (2 ^ 64) carry high low) × (carry ≡ true → low % 2 ≡ 0) × (128 ≤ top) × (top < 2 ^ 63) }
    ensures { Brought (head_in (2 ^ 64) carry high low) top result }
{
    if carry {
        return Normal {
            high: (high >> 1) | FIRST_DIGIT,
            low: (high << 63) | (low >> 1),
            exponent: top + 1,
        };
    }
    if high == 0 {
        return raise(low, 0, top - 64);
    }
    raise(high, low, top)
}
