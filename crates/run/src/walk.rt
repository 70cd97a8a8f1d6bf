// One run of limbs stepped through with another, in place: what a step makes of a limb of each takes the target's place.
//
//     target      t[n-1] ..  t[1]   t[0]
//     operand      ..  o[2]  o[1]   o[0]       0 past its end; limbs above the target are not looked at
//     carry                         carry
//
ghost use Rattle.std.specs.Prelude.{◌+◌, ◌≤◌, ◌<◌, length, drop};
ghost use Rattle.run.specs.Walk.{LimbStepped, FourStepped, Stepped, SteppedAt};

use limb::Step;
use parts::{limb_at, part_from};

// One limb. Returns the carry out.
fn step_limb<S: Step>(target: &mut [u64], operand: &[u64], i: usize, carry: bool) -> bool
    requires { (i < length target.old) × (i < length operand.now) }
    ensures { LimbStepped S.column i target.old operand.now carry target.new result }
{
    let s = S::limb(target[i], operand[i], carry);
    target[i] = s.limb;
    s.carry
}

// Four limbs from limb i on, written out: one chain of steps. Returns the carry out.
fn step_four<S: Step>(target: &mut [u64], operand: &[u64], i: usize, carry: bool) -> bool
    requires { (i + 4 ≤ length target.old) × (i + 4 ≤ length operand.now) }
    ensures { FourStepped S.column i target.old operand.now carry target.new result }
{
    let mut up = step_limb::<S>(target, operand, i, carry);
    up = step_limb::<S>(target, operand, i + 1, up);
    up = step_limb::<S>(target, operand, i + 2, up);
    step_limb::<S>(target, operand, i + 3, up)
}

// The walk with one limb a turn, which may pass the operand's end.
fn step_each<S: Step>(target: &mut [u64], operand: &[u64], carry: bool) -> bool
    ensures { Stepped S.column target.old operand.now carry target.new result }
{
    let mut up = carry;
    for (i, limb) in target.iter_mut().enumerate() {
        let s = S::limb(*limb, limb_at(operand, i), up);
        *limb = s.limb;
        up = s.carry;
    }
    up
}

// The walk where few limbs are left: the lowest four as one chain, then one limb a turn.
fn step_few<S: Step>(target: &mut [u64], operand: &[u64], carry: bool) -> bool
    requires { length target.old ≤ length operand.now }
    ensures { Stepped S.column target.old operand.now carry target.new result }
{
    if target.len() < 4 {
        return step_each::<S>(target, operand, carry);
    }
    let up = step_four::<S>(target, operand, 0, carry);
    step_each::<S>(&mut target[4..], &operand[4..], up)
}

// The walk over the whole target. Returns the carry out.
// Where the operand is as long as the target, no turn has to look for its end, and eight limbs a turn are one chain.
pub fn step_into<S: Step>(target: &mut [u64], operand: &[u64], carry: bool) -> bool
    ensures { Stepped S.column target.old operand.now carry target.new result }
{
    if operand.len() < target.len() {
        return step_each::<S>(target, operand, carry);
    }
    let turns = target.len() / 8;
    let mut up = carry;
    for turn in 0..turns {
        up = step_four::<S>(target, operand, 8 * turn, up);
        up = step_four::<S>(target, operand, 8 * turn + 4, up);
    }
    step_few::<S>(&mut target[8 * turns..], &operand[8 * turns..], up)
}

// The walk with the operand's limbs from start on: limb start meets the target's lowest. A start past the end leaves the carry alone.
pub fn step_from<S: Step>(target: &mut [u64], operand: &[u64], start: usize, carry: bool) -> bool
    ensures { Stepped S.column target.old (drop start operand.now) carry target.new result }
{
    step_into::<S>(target, part_from(operand, start), carry)
}

// The walk over the part of the target from limb start on. A start past the end leaves an empty part: the carry goes straight out.
pub fn step_at<S: Step>(target: &mut [u64], start: usize, operand: &[u64], carry: bool) -> bool
    ensures { SteppedAt S.column start target.old operand.now carry target.new result }
{
    if start < target.len() {
        step_into::<S>(&mut target[start..], operand, carry)
    } else {
        carry
    }
}
