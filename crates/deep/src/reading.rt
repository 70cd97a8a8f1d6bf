// The columns passed over, and one more.
ghost use Rattle.std.specs.Prelude.{◌≡◌, true, false, ℕ, ◌≤◌, ◌<◌};
ghost use Rattle.numbers.specs.Operand.{Operand};
ghost use Rattle.settle.specs.Ways.{theory_way};
ghost use Rattle.settle.specs.Rows.{Modest};
ghost use Rattle.remnant.specs.Rest.{RestOf};
ghost use Rattle.front.specs.Front.{first_of};
ghost use Rattle.bridge.specs.Verdict.{settled_by, read_sum};
ghost use Rattle.wide.specs.Filling.{Holding};
ghost use Rattle.deep.specs.Deep.{Inner};
ghost use Rattle.deep.specs.Reading.{inner_row, KeptTail, Ends, ReadOn};

use front::Front;
use remnant::Rest;
use settle::{Pair, Way};
use walk::Tail;
use wide::Operands;

// Whether a column fixes the answer, both operands having more than a digit below it.
pub fn is_settled(way: Way, same: bool, x: Rest) -> bool
    ensures { (p D : ℕ) → RestOf p D x → 0 < p → result ≡ settled_by (theory_way way) p D (inner_row same) }
{
    if same {
        lean::settled_plus(way, x, false, true, true)
    } else {
        lean::settled_minus(way, x, true)
    }
}

// The tail of so many columns that go on as the last digit of the first.
fn kept_tail(odd: bool, columns: u64) -> Tail
    requires { 1 ≤ columns }
    ensures { KeptTail odd columns result }
{
    if columns == 1 {
        return Tail::Empty;
    }
    if odd { Tail::Ones } else { Tail::Zeros }
}

// Whether k columns are seen to fix the answer: those below the first are neither all zeros nor all ones, or nothing is unread.
fn is_fixed(p: u64, pair: Pair, front: Front, k: u64) -> bool
    requires { Modest pair k × (0 < pair.second) }
    ensures { (result ≡ true → Ends p pair front k) × (result ≡ false → Ends p pair front k → ⊥) }
{
    if front::digits_of(front) <= p {
        return false;
    }
    let tail = front.tail;
    if front::is_mixed(tail) {
        return true;
    }
    (pair.first <= 64 * k) & (pair.gap + pair.second <= 64 * k)
}

// What is read, after so many columns, and whether they are seen to fix the answer. What they show is said in either case, so that no
// Option stands in place of the flag.
#[derive(Clone, Copy)]
pub struct Reading {
    pub fixed: bool,
    pub front: Front,
    pub columns: u64,
}

// Passes over the columns that go on as the last digit of the first, and reads one more.
pub fn read_on(p: u64, order: &Operands, begun: Front, stop: u64) -> Reading
    requires { Inner order.now.pair stop }
    ensures { (x y : Operand) → Holding x y order.now.pair order.now.first.now order.now.second.now → first_of begun ≡ read_sum x y 1 → ReadOn p order.now.pair stop x y result }
{
    let pair = order.pair;
    let odd = begun.limb % 2 == 1;
    let on = front::pass_over(pair, order.first, order.second, odd, stop);
    let above = Front {
        carry: begun.carry,
        limb: begun.limb,
        tail: kept_tail(odd, on),
    };
    let a = columns::column(order.first, pair.first, 0, on);
    let b = columns::column(order.second, pair.second, pair.gap, on);
    let next = front::step(pair.same, above, a, b);
    let columns = on + 1;
    Reading {
        fixed: is_fixed(p, pair, next, columns),
        front: next,
        columns,
    }
}
