// The columns below the guard, of which only this is kept: none, all zeros, all ones, or neither.
ghost use Rattle.std.specs.Prelude.{◌≡◌};
ghost use Rattle.walk.specs.Tail.{LongerTail, PassesTail, turned};

use crate::change::{Change, Passed};
use crate::state::Tail;

// A tail with one column more and nothing carried into it.
fn longer(tail: Tail, low: u64) -> Tail
    ensures { LongerTail tail low result }
{
    match tail {
        Tail::Empty => {
            if low == 0 {
                Tail::Zeros
            } else {
                if low == 18446744073709551615 {
                    Tail::Ones
                } else {
                    Tail::Mixed
                }
            }
        }
        Tail::Zeros => { if low == 0 { Tail::Zeros } else { Tail::Mixed } }
        Tail::Ones => {
            if low == 18446744073709551615 {
                Tail::Ones
            } else {
                Tail::Mixed
            }
        }
        Tail::Mixed => Tail::Mixed,
    }
}

// What a change that goes on above a tail leaves of it: a carry makes zeros of ones, a borrow ones of zeros. Any other tail holds the change.
fn turned(tail: Tail, change: Change) -> Option<Tail>
    ensures { result ≡ turned change tail }
{
    match (change, tail) {
        (_, Tail::Empty) => Some(Tail::Empty),
        (Change::Rise, Tail::Ones) => Some(Tail::Zeros),
        (Change::Fall, Tail::Zeros) => Some(Tail::Ones),
        _ => None,
    }
}

// One column more below a tail, changed or not.
pub fn pass_tail(tail: Tail, low: u64, change: Option<Change>) -> Passed<Tail>
    ensures { PassesTail change tail low result.up result.left }
{
    let Some(by_one) = change else {
        return Passed {
            left: longer(tail, low),
            up: None,
        };
    };
    match turned(tail, by_one) {
        Some(next) => Passed {
            left: longer(next, low),
            up: change,
        },
        None => Passed {
            left: Tail::Mixed,
            up: None,
        },
    }
}
