// What is known of a sum after so many columns.
ghost use Rattle.std.specs.Prelude.{◌≡◌, ◌+◌, ◌^◌, ◌≤◌};
ghost use Rattle.rounding.specs.Mode.{way};
ghost use Rattle.settle.specs.Ways.{theory_way};
ghost use Rattle.settle.specs.Rows.{seen_row, far_row, row_of, Modest};

use rounding::{AsMode, Mode};

// A mode on sizes: to the closest, not above, not below.
#[derive(Clone, Copy)]
pub enum Way {
    Near,
    Under,
    Over,
}

// The way of a mode, of a number with that sign.
#[tactic(auto, unfolding(crate::specs::Ways::theory_way, rounding::specs::Mode::way))]
pub fn way_of<M: AsMode>(mode: M, negative: bool) -> Way
    ensures { theory_way result ≡ way (M.mode_in mode) negative }
{
    let mode = mode.as_mode();
    match (mode, negative) {
        (Mode::Nearest, _) => Way::Near,
        (Mode::Zeroward, _) => Way::Under,
        (Mode::Upward, false) => Way::Over,
        (Mode::Upward, true) => Way::Under,
        (Mode::Downward, false) => Way::Under,
        (Mode::Downward, true) => Way::Over,
    }
}

// Two operands of which the first begins at the top of column 0 and the second gap digits below; a precision of 0 is no operand.
#[derive(Clone, Copy)]
pub struct Pair {
    pub same: bool,
    pub first: u64,
    pub second: u64,
    pub gap: u64,
    pub top: u64,
}

// The least sum is D, the sum of what is read, and perhaps some more; the greatest D, or the next unit, and perhaps some more. Or the least lies just above the unit
// below D, and the greatest is D and perhaps some more.
#[derive(Clone, Copy)]
pub enum Row {
    Exact,
    Plus { least: bool, next: bool, most: bool },
    Minus { most: bool },
    Hole,
}

// The second operand lies below all that is read.
fn far_row(pair: Pair, c: u64) -> Row
    requires { c ≤ 2 ^ 42 }
    ensures { result ≡ far_row pair c }
{
    if pair.first <= c {
        return Row::Hole;
    }
    if pair.same {
        return Row::Plus {
            least: true,
            next: pair.gap < pair.first,
            most: true,
        };
    }
    let single = (pair.first == c + 1) & (pair.gap == c);
    Row::Minus { most: !single }
}

// Both operands reach into what is read, or there is only one.
fn seen_row(pair: Pair, c: u64) -> Row
    requires { (c ≤ 2 ^ 42) × (pair.gap + pair.second ≤ 2 ^ 43) }
    ensures { result ≡ seen_row pair c }
{
    let first = c < pair.first;
    let second = c < pair.gap + pair.second;
    if pair.same {
        if first & second {
            let single = (pair.first == c + 1) & (pair.gap + pair.second == c + 1);
            return Row::Plus {
                least: false,
                next: true,
                most: !single,
            };
        }
        return Row::Plus {
            least: false,
            next: false,
            most: true,
        };
    }
    if second {
        return Row::Minus { most: first };
    }
    Row::Plus {
        least: false,
        next: false,
        most: true,
    }
}

// What is known after k columns.
pub fn row_of(pair: Pair, k: u64) -> Row
    requires { Modest pair k }
    ensures { result ≡ row_of pair k }
{
    let c = 64 * k;
    if pair.second == 0 {
        if pair.first <= c {
            return Row::Exact;
        }
        return seen_row(pair, c);
    }
    if (pair.first <= c) & (pair.gap + pair.second <= c) {
        return Row::Exact;
    }
    if c <= pair.gap {
        far_row(pair, c)
    } else {
        seen_row(pair, c)
    }
}
