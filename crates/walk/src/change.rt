// A number changed by one, from a limb up.
ghost use Rattle.std.specs.Prelude.{◌^◌, ◌*◌, ◌≤◌, ◌<◌, length};
ghost use Rattle.limb.specs.Carry.{bit};
ghost use Rattle.walk.specs.Change.{Balanced, ChangedFrom, ChangedAt, PassesLimb};

use limb::Limb;

// What a new column does to the one above it, where it does something: it adds one, or takes one off.
#[derive(Clone, Copy, Debug, PartialEq, Eq)]
pub enum Change {
    Rise,
    Fall,
}

// A limb changed by one, and whether a carry or a borrow goes out of it.
fn change_limb(limb: u64, change: Change) -> Limb
    ensures { Balanced change 1 result.limb limb (2 ^ 64 * bit result.carry) }
{
    match change {
        Change::Rise => limb::add_carry(limb, 1, false),
        Change::Fall => limb::sub_borrow(limb, 1, false),
    }
}

// Changes a number by one at a limb; ends where no carry or borrow is left. Returns what goes out of the top.
pub fn change_from(target: &mut [u64], from: usize, change: Change) -> bool
    requires { from ≤ length target.old }
    ensures { ChangedFrom change from target.old target.new result }
{
    for t in target[from..].iter_mut() {
        let next = change_limb(*t, change);
        *t = next.limb;
        if !next.carry {
            return false;
        }
    }
    true
}

// The carry above the target once the limbs from a place on are changed by one, or left.
pub fn change_at(target: &mut [u64], from: usize, carry: bool, change: Option<Change>) -> bool
    requires { from ≤ length target.old }
    ensures { ChangedAt change from carry target.old target.new result }
{
    match change {
        None => carry,
        Some(by_one) => carry != change_from(target, from, by_one),
    }
}

// What a change leaves of a limb or of a tail, and the change of what stands above it.
#[derive(Clone, Copy)]
pub struct Passed<T> {
    pub left: T,
    pub up: Option<Change>,
}

// One limb changed by one: only a limb of all ones passes a carry on, and only a limb of zeros a borrow.
pub fn pass_limb(limb: u64, change: Option<Change>) -> Passed<u64>
    ensures { (result.left < 2 ^ 64) × PassesLimb change limb result.up result.left }
{
    let Some(by_one) = change else {
        return Passed {
            left: limb,
            up: None,
        };
    };
    let next = change_limb(limb, by_one);
    Passed {
        left: next.limb,
        up: next.carry.then_some(by_one),
    }
}
