// One run of limbs taken off another, in place. The columns are those of walk.rt.
ghost use Rattle.std.specs.Prelude.{drop};
ghost use Rattle.run.specs.Sum.{Subtracted, SubtractedAt, Reversed};

use crate::walk::{step_at, step_from, step_into};
use limb::{Taking, TakingFrom};

// Takes the operand and a borrow off the target, as far as the target goes. Returns the borrow out.
pub fn sub_into(target: &mut [u64], operand: &[u64], borrow: bool) -> bool
    ensures { Subtracted target.old operand.now borrow target.new result }
{
    step_into::<Taking>(target, operand, borrow)
}

// Takes off the operand's limbs from start on: limb start meets the target's lowest. A start past the end leaves nothing to take off.
pub fn sub_from(target: &mut [u64], operand: &[u64], start: usize, borrow: bool) -> bool
    ensures { Subtracted target.old (drop start operand.now) borrow target.new result }
{
    step_from::<Taking>(target, operand, start, borrow)
}

// Takes off the part of the target from limb start on. A start past the end leaves an empty part: the borrow goes straight out.
pub fn sub_at(target: &mut [u64], start: usize, operand: &[u64], borrow: bool) -> bool
    ensures { SubtractedAt start target.old operand.now borrow target.new result }
{
    step_at::<Taking>(target, start, operand, borrow)
}

// The operand less the target and a borrow, as far as the target goes, in the target's place. Returns the borrow out.
pub fn rsub_into(target: &mut [u64], operand: &[u64], borrow: bool) -> bool
    ensures { Reversed target.old operand.now borrow target.new result }
{
    step_into::<TakingFrom>(target, operand, borrow)
}

// The same of the operand's limbs from start on: limb start meets the target's lowest.
pub fn rsub_from(target: &mut [u64], operand: &[u64], start: usize, borrow: bool) -> bool
    ensures { Reversed target.old (drop start operand.now) borrow target.new result }
{
    step_from::<TakingFrom>(target, operand, start, borrow)
}
