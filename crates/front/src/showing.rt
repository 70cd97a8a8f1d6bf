// What is read of a sum or difference, and one column more.
ghost use Rattle.std.specs.Prelude.{◌≡◌, true, false, cond, ℕ, ◌+◌, ◌-◌, ◌*◌, ◌≤◌};
ghost use Rattle.std.specs.Float.Ieee.{size};
ghost use Rattle.walk.specs.declared.state.Tail.TheVariants.{Empty, Mixed};
ghost use Rattle.walk.specs.Tail.{Unmixed};
ghost use Rattle.remnant.specs.Rest.{RestAt};
ghost use Rattle.front.specs.Front.{first_of, Kept, Changed, FrontGrown, Stepped};

use remnant::Rest;
use walk::{Change, Tail};

#[derive(Clone, Copy)]
pub struct Front {
    pub carry: bool,
    pub limb: u64,
    pub tail: Tail,
}

// The first column alone: a limb of one operand, and the part of the other that stands there.
pub fn begin(same: bool, u: u64, low: u64) -> Front
    requires { same ≡ false → low ≤ u }
    ensures { (result.tail ≡ Empty) × (first_of result ≡ cond same (u + low) (u - low)) }
{
    if same {
        let s = limb::add_carry(u, low, false);
        return Front {
            carry: s.carry,
            limb: s.limb,
            tail: Tail::Empty,
        };
    }
    Front {
        carry: false,
        limb: u - low,
        tail: Tail::Empty,
    }
}

// How many digits the first column has, with its carry.
pub fn digits_of(front: Front) -> u64
    ensures { result ≡ size (first_of front) }
{
    if front.carry {
        65
    } else {
        64 - (u64::leading_zeros(front.limb) as u64)
    }
}

// Whether the columns below are neither all zeros nor all ones.
pub fn is_mixed(tail: Tail) -> bool
    ensures { (result ≡ true → tail ≡ Mixed) × (result ≡ false → Unmixed tail) }
{
    match tail {
        Tail::Empty => false,
        Tail::Zeros => false,
        Tail::Ones => false,
        Tail::Mixed => true,
    }
}

// What lies below the last digit kept, where `bits` digits of the first column do and the columns below it go on as its last digit does.
pub fn rest_kept(front: Front, bits: u64) -> Rest
    requires { (2 ≤ bits) × (bits ≤ 64) }
    ensures { (t D : ℕ) → Kept (first_of front) t D → RestAt D (bits + 64 * t) result }
{
    remnant::word_rest(front.limb, bits, front.carry)
}

// The first column changed by one, and a tail below it.
fn changed(carry: bool, limb: u64, tail: Tail, change: Option<Change>) -> Front
    ensures { Changed carry limb tail change result }
{
    let Some(by_one) = change else {
        return Front { carry, limb, tail };
    };
    match by_one {
        Change::Rise => {
            let s = limb::add_carry(limb, 1, false);
            Front {
                carry: carry | s.carry,
                limb: s.limb,
                tail,
            }
        }
        Change::Fall => {
            let d = limb::sub_borrow(limb, 1, false);
            Front {
                carry: carry & !d.carry,
                limb: d.limb,
                tail,
            }
        }
    }
}

// One column more: its limb, and what it does to the column above.
fn append(front: Front, low: u64, change: Option<Change>) -> Front
    ensures { FrontGrown front low change result }
{
    let tail = front.tail;
    let under = walk::pass_tail(tail, low, change);
    let next = under.left;
    let up = under.up;
    changed(front.carry, front.limb, next, up)
}

// The next column of a sum or a difference, one function over the sign, since `Stepped` says both cases of it.
pub fn step(same: bool, front: Front, a: u64, b: u64) -> Front
    ensures { Stepped same front a b result }
{
    if same {
        let s = limb::add_carry(a, b, false);
        return append(front, s.limb, s.carry.then_some(Change::Rise));
    }
    let d = limb::sub_borrow(a, b, false);
    append(front, d.limb, d.carry.then_some(Change::Fall))
}
