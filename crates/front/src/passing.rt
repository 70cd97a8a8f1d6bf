// Columns that leave a sum as it is, passed over.
ghost use Rattle.std.specs.Prelude.{true, ℕ, ◌≤◌, ◌<◌};
ghost use Rattle.columns.specs.Column.{column_of};
ghost use Rattle.front.specs.Passing.{NotPast, PassedZeros, PassedOnes, PassedAlike, PassedBelow};

use settle::Pair;

// Passes the columns after the first, up to the first whose limbs of both operands do not go on alike, or up to the stop.
fn pass_while<F: Fn(u64, u64) -> bool>(
    pair: Pair,
    first: &[u64],
    second: &[u64],
    stop: u64,
    goes_on: F,
) -> u64
    requires { F.IsAlwaysCallable goes_on }
    ensures { NotPast 1 stop result × ((k : ℕ) → 1 ≤ k → k < result → F.post goes_on (column_of k 0 first.now) (column_of k pair.gap second.now) true) }
{
    for k in 1..stop {
        let a = columns::column(first, pair.first, 0, k);
        let b = columns::column(second, pair.second, pair.gap, k);
        if !goes_on(a, b) {
            return k;
        }
    }
    stop.max(1)
}

// Passes the columns in which both operands are 0.
fn pass_zeros(pair: Pair, first: &[u64], second: &[u64], stop: u64) -> u64
    ensures { NotPast 1 stop result × PassedZeros pair.gap first.now second.now 1 result }
{
    pass_while(pair, first, second, stop, |a, b| (a | b) == 0)
}

// Passes the columns in which the operands come to all ones, and carry nothing.
fn pass_ones(pair: Pair, first: &[u64], second: &[u64], stop: u64) -> u64
    ensures { NotPast 1 stop result × PassedOnes pair.gap first.now second.now 1 result }
{
    pass_while(pair, first, second, stop, |a, b| a == u64::MAX - b)
}

// Passes the columns in which both operands are alike.
fn pass_alike(pair: Pair, first: &[u64], second: &[u64], stop: u64) -> u64
    ensures { NotPast 1 stop result × PassedAlike pair.gap first.now second.now 1 result }
{
    pass_while(pair, first, second, stop, |a, b| a == b)
}

// Passes the columns after the first that leave it as it is: zeros below a first column that is even, ones below an odd one. Below a
// difference that is odd none is passed.
pub fn pass_over(pair: Pair, first: &[u64], second: &[u64], odd: bool, stop: u64) -> u64
    ensures { NotPast 1 stop result × PassedBelow pair odd first.now second.now result }
{
    match (pair.same, odd) {
        (true, false) => pass_zeros(pair, first, second, stop),
        (true, true) => pass_ones(pair, first, second, stop),
        (false, false) => pass_alike(pair, first, second, stop),
        (false, true) => 1,
    }
}
