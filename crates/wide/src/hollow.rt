// All of the first operand stands in the columns that fill the target, and the second begins below them and more than a digit below those asked for: the answer is that of the first and a little more, or a little less, whatever stands in the second.
//
//     column      0                     n - 1
//     first    [ top limb  ..  lowest limb ]
//     second                                     [ limb ..
//
ghost use Rattle.std.specs.Prelude.{◌≡◌, true, ◌&&◌, ◌*◌, leb, length};
ghost use Rattle.limb.specs.Value.{value_of};
ghost use Rattle.columns.specs.Column.{read_to};
ghost use Rattle.checks.specs.Room.{Room};
ghost use Rattle.wide.specs.Filling.{Fills};
ghost use Rattle.wide.specs.Beside.{Beside};
ghost use Rattle.wide.specs.Covering.{Covers};

use crate::filling::Filled;
use crate::order::Operands;

// Fills the target with the columns of an operand of m digits, from the top.
fn fill_first(target: &mut [u64], first: &[u64], m: u64)
    requires { Covers (length first.now) (length target.old) }
    ensures { (length target.new ≡ length target.old) × (value_of target.new ≡ read_to (length target.old) 0 first.now) }
{
    leap::leap_single(target, first, m, target.len() as u64 - 1);
}

// What is left in a run with a little below it, and the guard for that: in a sum the run as it is, and zeros; in a difference one less, and ones.
pub fn beside(same: bool, target: &mut [u64]) -> u64
    ensures { Beside same target.old target.new result }
{
    if same {
        return 0;
    }
    walk::change_from(target, 0, walk::Change::Fall);
    u64::MAX
}

// Fills the target with the first operand, and a little more below it, or a little less.
pub fn fill_hollow(p: u64, order: &Operands, target: &mut [u64]) -> Option<Filled>
    requires { Room p (length target.old) × ((leb (64 * length target.old) order.now.pair.gap && leb order.now.pair.first (64 * length target.old)) ≡ true) }
    ensures { (length target.new ≡ length target.old) × Fills p order.now.pair order.now.first.now order.now.second.now target.new result }
{
    let pair = order.pair;
    if pair.gap <= p + 1 {
        return None;
    }
    if !descent::is_prompt(pair, order.first.len(), order.second.len(), 0, target.len()) {
        return None;
    }
    let n = target.len() as u64;
    fill_first(target, order.first, pair.first);
    let guard = beside(pair.same, target);
    Some(Filled {
        carry: false,
        guard,
        more: true,
        depth: n,
    })
}
