// One walk fills the target: the columns that fill it fix the answer, or those and the guard.
ghost use Rattle.std.specs.Prelude.{◌≡◌, false, ◌-◌, ◌*◌, ◌/◌, ◌%◌, ◌^◌, ◌≤◌, ◌<◌, length, IfSome};
ghost use Rattle.limb.specs.Value.{value_of};
ghost use Rattle.checks.specs.Room.{Room};
ghost use Rattle.descent.specs.Course.{Inland};
ghost use Rattle.wide.specs.Filling.{Fills};
ghost use Rattle.wide.specs.Guarding.{Spent};
ghost use Rattle.near.specs.Abreast.{Abreast, Moved, Guarding};

use limb::Limb;
use wide::{Filled, Operands};

// What falls below the target of the second operand, by its lowest limb, and whether it borrows: the first has nothing there.
fn guard_of(same: bool, lowest: u64, gap: u64) -> Limb
    requires { (0 < gap) × (gap < 64) }
    ensures { Guarding same (lowest * 2 ^ (64 - gap) % 2 ^ 64) result.limb result.carry }
{
    let below = lowest << (64 - gap);
    if same {
        return Limb {
            limb: below,
            carry: false,
        };
    }
    limb::sub_borrow(0, below, false)
}

// The first operand and the second, or the first less the second and a borrow. Returns the carry: a difference has none.
fn fill_moved(order: &Operands, borrow: bool, target: &mut [u64]) -> bool
    requires { (0 < length target.old) × Abreast order.now.pair order.now.first.now order.now.second.now (length target.old) }
    ensures { Moved order.now.pair.same (value_of order.now.first.now) (value_of order.now.second.now / 2 ^ order.now.pair.gap) borrow (length target.old) target.new result }
{
    let pair = order.pair;
    if pair.same {
        return fused::sum_moved(target, order.first, order.second, pair.gap);
    }
    fused::difference_moved(target, order.first, order.second, pair.gap, borrow);
    false
}

// The target has no digit to spare: the columns that fill it, and the guard.
fn fill_guarded(p: u64, order: &Operands, target: &mut [u64]) -> Option<Filled>
    requires { Room p (length target.old) × Abreast order.now.pair order.now.first.now order.now.second.now (length target.old) × Spent p order.now.pair (length target.old) × Inland order.now.pair (length target.old) }
    ensures { (length target.new ≡ length target.old) × Fills p order.now.pair order.now.first.now order.now.second.now target.new result }
{
    let pair = order.pair;
    let guard = guard_of(pair.same, order.second[0], pair.gap);
    let carry = fill_moved(order, guard.carry, target);
    if carry {
        return None;
    }
    wide::glance_guarded(p, pair, guard.limb, target)
}

// The columns that fill the target alone.
fn fill_full(p: u64, order: &Operands, target: &mut [u64]) -> Option<Filled>
    requires { Room p (length target.old) × Abreast order.now.pair order.now.first.now order.now.second.now (length target.old) × Inland order.now.pair (length target.old) }
    ensures { (length target.new ≡ length target.old) × Fills p order.now.pair order.now.first.now order.now.second.now target.new result }
{
    let carry = fill_moved(order, false, target);
    wide::glance_full(p, order.pair, carry, target)
}

// Fills the target where no refusal is near. All limbs of both operands are then used.
pub fn fill(p: u64, order: &Operands, target: &mut [u64]) -> Option<Filled>
    requires { Room p (length target.old) × Abreast order.now.pair order.now.first.now order.now.second.now (length target.old) }
    ensures { (length target.new ≡ length target.old) × Fills p order.now.pair order.now.first.now order.now.second.now target.new result × IfSome result (λ f. length target.old ≤ f.depth) }
{
    let n = target.len() as u64;
    let pair = order.pair;
    if !descent::is_inland(pair, n) {
        return None;
    }
    if wide::needs_guard(p, pair, n) {
        return fill_guarded(p, order, target);
    }
    fill_full(p, order, target)
}
