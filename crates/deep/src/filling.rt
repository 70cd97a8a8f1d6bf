// What fills the target.
ghost use Rattle.std.specs.Prelude.{◌≡◌, ◌≤◌, length};
ghost use Rattle.settle.specs.Rows.{Modest};
ghost use Rattle.checks.specs.Room.{Room};
ghost use Rattle.wide.specs.Filling.{FillsBy};
ghost use Rattle.deep.specs.Deep.{Deep, Inner};
ghost use Rattle.deep.specs.Reading.{FrontFilled};

use crate::reading::{is_settled, read_on};
use front::Front;
use rounding::{AsMode, Mode};
use settle::Pair;
use wide::{Filled, Operands};

// The last column below which both operands have more than a digit.
fn inner_of(pair: Pair) -> u64
    requires { Modest pair 1 × Deep pair }
    ensures { Inner pair result }
{
    let second = pair.gap + pair.second;
    if second < pair.first {
        (second - 2) / 64
    } else {
        (pair.first - 2) / 64
    }
}

// The first column in the target, and what is told of it.
fn filled(front: Front, more: bool, depth: u64, target: &mut [u64]) -> Filled
    requires { length target.old ≡ 1 }
    ensures { FrontFilled front more depth target.new result }
{
    let tail = front.tail;
    target[0] = front.limb;
    Filled {
        carry: front.carry,
        guard: 0,
        more: more | descent::holds_more(tail),
        depth,
    }
}

// Fills a target of one limb, where a column after the first is seen to fix the answer, or the first does.
pub fn fill<M: AsMode>(mode: M, p: u64, order: &Operands, target: &mut [u64]) -> Option<Filled>
    requires { Room p (length target.old) × (p ≤ 62) × Deep order.now.pair }
    ensures { (length target.new ≡ length target.old) × FillsBy (M.mode_in mode) order.now.negative p order.now.pair order.now.first.now order.now.second.now target.new result }
{
    fill_under(mode.as_mode(), p, order, target)
}

// The same under a mode.
fn fill_under(mode: Mode, p: u64, order: &Operands, target: &mut [u64]) -> Option<Filled>
    requires { Room p (length target.old) × (p ≤ 62) × Deep order.now.pair }
    ensures { (length target.new ≡ length target.old) × FillsBy mode order.now.negative p order.now.pair order.now.first.now order.now.second.now target.new result }
{
    let pair = order.pair;
    let stop = inner_of(pair);
    if !descent::is_inland(pair, stop) {
        return None;
    }
    let u = order.first[order.first.len() - 1];
    let v = order.second[order.second.len() - 1];
    let begun = front::begin(pair.same, u, v >> pair.gap);
    let digits = front::digits_of(begun);
    if digits < p + 2 {
        return None;
    }
    let x = front::rest_kept(begun, digits - p);
    if is_settled(settle::way_of(mode, order.negative), pair.same, x) {
        return Some(filled(begun, !pair.same, 1, target));
    }
    let r = read_on(p, order, begun, stop);
    if !r.fixed {
        return None;
    }
    let last = r.front;
    Some(filled(last, false, r.columns, target))
}
