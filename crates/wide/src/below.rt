// What lies below the columns read of two operands.
ghost use Rattle.std.specs.Prelude.{◌≡◌, true, false, ◌&&◌, ◌+◌, ◌*◌, ◌<◌, leb};
ghost use Rattle.settle.specs.Rows.{row_of, Modest};
ghost use Rattle.bridge.specs.Verdict.{inner?, more_of};

use settle::Pair;

// Whether both operands are all read after k columns.
pub fn is_read(pair: Pair, k: u64) -> bool
    requires { Modest pair k }
    ensures { result ≡ (leb pair.first (64 * k) && leb (pair.gap + pair.second) (64 * k)) }
{
    let c = 64 * k;
    (pair.first <= c) & (pair.gap + pair.second <= c)
}

// Whether the first is, and the second lies below.
pub fn is_hollow(pair: Pair, k: u64) -> bool
    requires { Modest pair k }
    ensures { result ≡ (leb (64 * k) pair.gap && leb pair.first (64 * k)) }
{
    let c = 64 * k;
    (c <= pair.gap) & (pair.first <= c)
}

// What lies below, as a half of the last unit, where something does.
pub fn more_below(pair: Pair, k: u64) -> bool
    requires { Modest pair k }
    ensures { 0 < pair.second → (leb pair.first (64 * k) && leb (pair.gap + pair.second) (64 * k)) ≡ false → (leb (64 * k) pair.gap && leb pair.first (64 * k)) ≡ false → (inner? (row_of pair k) ≡ true) × (more_of (row_of pair k) ≡ result) }
{
    let c = 64 * k;
    if c <= pair.gap {
        if pair.same {
            return true;
        }
        let single = (pair.first == c + 1) & (pair.gap == c);
        return !single;
    }
    if pair.same {
        return false;
    }
    (c < pair.gap + pair.second) & (c < pair.first)
}
