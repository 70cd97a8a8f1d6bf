// What is read of a sum or difference: its top limbs in the target, one limb more in the guard, and of the columns below the guard only
// whether they are all zeros, all ones or neither.
//
//     carry | target: filled limbs from the top | guard | tail
//
ghost use Rattle.std.specs.Prelude.{◌≡◌, Some, List, ℕ, ◌+◌, ◌^◌, ◌<◌, length};
ghost use Rattle.walk.specs.Window.{Fits, Shows};
ghost use Rattle.walk.specs.Append.{Appended, Summed, Led, Differed};

use crate::change::{Change, change_at, pass_limb};
use crate::tail::pass_tail;

// Four states with laws of their own: none of them is a value that is missing.
#[derive(Clone, Copy)]
pub enum Tail {
    Empty,
    Zeros,
    Ones,
    Mixed,
}

#[derive(Clone, Copy)]
pub struct Window {
    pub skipped: u64,
    pub carry: bool,
    pub filled: usize,
    pub guard: Option<u64>,
    pub tail: Tail,
}

// A window that shows 0 after so many columns.
pub fn start(skipped: u64) -> Window
    ensures { (result.filled ≡ 0) × ((target : List ℕ) → 0 < length target → Shows result target skipped 0) }
{
    Window {
        skipped: skipped,
        carry: false,
        filled: 0,
        guard: None,
        tail: Tail::Empty,
    }
}

// A column below the guard.
fn append_tail(
    w: Window,
    target: &mut [u64],
    guard: u64,
    low: u64,
    change: Option<Change>,
) -> Window
    requires { Fits w target.old × (w.guard ≡ Some guard) }
    ensures { Appended w low change target.old result target.new }
{
    let tail = w.tail;
    let under = pass_tail(tail, low, change);
    let into_guard = under.up;
    let here = pass_limb(guard, into_guard);
    let into_target = here.up;
    let carry = change_at(target, 0, w.carry, into_target);
    let next = under.left;
    Window {
        skipped: w.skipped,
        carry: carry,
        filled: w.filled,
        guard: Some(here.left),
        tail: next,
    }
}

// One column more: its limb, and what it does to the column above.
fn append(w: Window, target: &mut [u64], low: u64, change: Option<Change>) -> Window
    requires { Fits w target.old }
    ensures { Appended w low change target.old result target.new }
{
    let filled = w.filled;
    let tail = w.tail;
    if let Some(guard) = w.guard {
        return append_tail(w, target, guard, low, change);
    }
    if filled < target.len() {
        let at = target.len() - filled;
        let carry = change_at(target, at, w.carry, change);
        target[at - 1] = low;
        return Window {
            skipped: w.skipped,
            carry: carry,
            filled: filled + 1,
            guard: None,
            tail: tail,
        };
    }
    let carry = change_at(target, 0, w.carry, change);
    Window {
        skipped: w.skipped,
        carry: carry,
        filled: filled,
        guard: Some(low),
        tail: tail,
    }
}

// The next column of a sum.
pub fn append_sum(w: Window, target: &mut [u64], a: u64, b: u64) -> Window
    requires { Fits w target.old }
    ensures { Summed w a b target.old result target.new }
{
    let s = limb::add_carry(a, b, false);
    append(w, target, s.limb, s.carry.then_some(Change::Rise))
}

// The first columns of a difference: no limb is kept until 2 or more stands there, so that no borrow can empty the top limb.
fn lead(w: Window, target: &mut [u64], low: u64, borrow: bool) -> Window
    requires { Fits w target.old × (w.filled ≡ 0) × (w.skipped + 1 < 2 ^ 64) }
    ensures { Led w low borrow target.old result target.new }
{
    let pending = w.carry;
    let none = start(w.skipped + 1);
    let here = start(w.skipped);
    if pending & !borrow {
        return append(w, target, low, None);
    }
    if low == 0 {
        return none;
    }
    if low == 1 {
        return Window {
            skipped: w.skipped + 1,
            carry: true,
            filled: 0,
            guard: None,
            tail: Tail::Empty,
        };
    }
    append(here, target, low, None)
}

// The next column of a difference. It stands beside that of a sum, since it may keep no limb, and asks for no room.
pub fn append_difference(w: Window, target: &mut [u64], a: u64, b: u64) -> Window
    requires { Fits w target.old × (w.skipped + 1 < 2 ^ 64) }
    ensures { Differed w a b target.old result target.new }
{
    let s = limb::sub_borrow(a, b, false);
    let filled = w.filled;
    if filled == 0 {
        return lead(w, target, s.limb, s.carry);
    }
    append(w, target, s.limb, s.carry.then_some(Change::Fall))
}
