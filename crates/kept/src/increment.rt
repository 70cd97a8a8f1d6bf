// Walk two: the last unit is added.
ghost use Rattle.std.specs.Prelude.{◌≡◌, [], ◌∷◌, ◌+◌, ◌/◌, ◌%◌, ◌^◌, ◌<◌, eqb, length};
ghost use Rattle.limb.specs.Carry.{bit};
ghost use Rattle.limb.specs.Value.{value_of};
ghost use Rattle.kept.specs.Walk.{UnitAdded, RoundedUp};

use limb::FIRST_DIGIT;
use location::power;

// Whether the last kept digit is 1.
pub fn is_odd(target: &[u64], spare: u64) -> bool
    requires { (0 < length target.now) × (spare < 64) }
    ensures { result ≡ eqb (value_of target.now / 2 ^ spare % 2) 1 }
{
    (target[0] >> spare) % 2 == 1
}

// Adds 2^spare. The carry runs up only as far as ones stand. Returns the carry out of the top.
fn add_unit(target: &mut [u64], spare: u64) -> bool
    requires { (0 < length target.old) × (spare < 64) }
    ensures { UnitAdded spare target.old result target.new }
{
    let mut add = power(spare);
    for limb in target.iter_mut() {
        if add == 0 {
            return false;
        }
        let s = limb::add_carry(*limb, add, false);
        *limb = s.limb;
        add = s.carry as u64;
    }
    add != 0
}

// Adds the last unit where it is asked for. All ones become a 1 with zeros below it, and the answer tells so.
pub fn round_up(target: &mut [u64], spare: u64, up: bool) -> bool
    requires { (0 < length target.old) × (spare < 64) × (value_of target.old % 2 ^ spare ≡ 0) }
    ensures { RoundedUp spare (value_of target.old / 2 ^ spare + bit up) target.old result target.new }
{
    if !up {
        return false;
    }
    if !add_unit(target, spare) {
        return false;
    }
    let last = target.len() - 1;
    target[last] = FIRST_DIGIT;
    true
}

// One limb with the last unit where it is asked for, and whether all digits were ones: the limb is the answer's either way.
#[derive(Clone, Copy, Debug, PartialEq, Eq)]
pub struct Raised {
    pub limb: u64,
    pub over: bool,
}

// The same for one limb.
pub fn raise(limb: u64, spare: u64, up: bool) -> Raised
    requires { (spare < 64) × (value_of (limb ∷ []) % 2 ^ spare ≡ 0) }
    ensures { RoundedUp spare (value_of (limb ∷ []) / 2 ^ spare + bit up) (limb ∷ []) result.over (result.limb ∷ []) }
{
    if !up {
        return Raised { limb, over: false };
    }
    let s = limb::add_carry(limb, power(spare), false);
    if s.carry {
        return Raised {
            limb: FIRST_DIGIT,
            over: true,
        };
    }
    Raised {
        limb: s.limb,
        over: false,
    }
}
