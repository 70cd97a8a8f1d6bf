// One run of limbs added into another, in place. The columns are those of walk.rt.
ghost use Rattle.std.specs.Prelude.{drop};
ghost use Rattle.run.specs.Sum.{Added, AddedAt};

use crate::walk::{step_at, step_from, step_into};
use limb::Adding;

// Adds the operand and a carry into the target, as far as the target goes. Returns the carry out.
pub fn add_into(target: &mut [u64], operand: &[u64], carry: bool) -> bool
    ensures { Added target.old operand.now carry target.new result }
{
    step_into::<Adding>(target, operand, carry)
}

// Adds the operand's limbs from start on: limb start meets the target's lowest. A start past the end leaves nothing to add.
pub fn add_from(target: &mut [u64], operand: &[u64], start: usize, carry: bool) -> bool
    ensures { Added target.old (drop start operand.now) carry target.new result }
{
    step_from::<Adding>(target, operand, start, carry)
}

// Adds into the part of the target from limb start on. A start past the end leaves an empty part: the carry goes straight out.
pub fn add_at(target: &mut [u64], start: usize, operand: &[u64], carry: bool) -> bool
    ensures { AddedAt start target.old operand.now carry target.new result }
{
    step_at::<Adding>(target, start, operand, carry)
}
