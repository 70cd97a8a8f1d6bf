// The walk down the columns, until the answer is fixed.
ghost use Rattle.std.specs.Prelude.{◌≡◌, Bool, true, false, cond, ℕ, ◌+◌, ◌-◌, ◌/◌, ◌^◌, ◌≤◌, ◌<◌, eqb, length};
ghost use Rattle.std.specs.Float.Ieee.{size};
ghost use Rattle.limb.specs.Value.{value_of};
ghost use Rattle.limb.specs.Carry.{bit};
ghost use Rattle.numbers.specs.Operand.{Operand, spare_bits};
ghost use Rattle.rounding.specs.Mode.{way};
ghost use Rattle.rounding.specs.declared.Mode.{Mode};
ghost use Rattle.decide.specs.Class.{settled};
ghost use Rattle.decide.specs.Decide.{decide_at};
ghost use Rattle.decide.specs.Table.{hole_by_size};
ghost use Rattle.columns.specs.Column.{column_of};
ghost use Rattle.remnant.specs.Rest.{RestOf};
ghost use Rattle.walk.specs.Window.{Fits, Shows};
ghost use Rattle.settle.specs.Ways.{theory_way};
ghost use Rattle.bounds.specs.Ends.{Ones};
ghost use Rattle.hole.specs.Hole.{InHole, Signs};
ghost use Rattle.settle.specs.declared.rows.Way as code;
ghost use Rattle.bridge.specs.Verdict.{pair_of, refused_by};
ghost use Rattle.checks.specs.Room.{Room};
ghost use Rattle.descent.specs.declared.going.Verdict.TheVariants as verdict;
ghost use Rattle.descent.specs.Course.{Course, Judged, Stopped, Held, Begun, Going, Reached, Underway, Arrived, Arriving, Prompt, Measured, Moderate, refused_as, verdict_as, open?};

use crate::prompt::{fill, has_lead, is_prompt};
use remnant::Rest;
use settle::{Pair, Row, Way};
use walk::Window;

// Not fixed; fixed, the sum being D, and more if so said; fixed in a hole; fixed as a refusal.
#[derive(Clone, Copy)]
pub enum Verdict {
    Open,
    Fixed(bool),
    InHole,
    Refused(u8),
}

// Where the walk ended: what is read of the sum, the columns, and the verdict.
#[derive(Clone, Copy)]
pub struct Walked {
    pub window: Window,
    pub columns: u64,
    pub verdict: Verdict,
}

// How many digits D has, the tail's columns among them.
fn digits_in(w: Window, target: &[u64], pair: Pair, k: u64) -> u64
    requires { (length target.now < 2 ^ 50) × Measured pair w target.now k }
    ensures { (result ≤ 2 ^ 30) × ((D : ℕ) → Shows w target.now k D → result ≡ size D) }
{
    let digits = remnant::digits_of(w, target);
    let filled = w.filled;
    let below = k - w.skipped - (filled as u64);
    if w.guard.is_some() {
        return digits + 64 * (below - 1);
    }
    digits + 64 * below
}

// Whether the first p digits of D, or all where there are fewer, are 1.
fn ones_in(w: Window, target: &[u64], pair: Pair, k: u64, digits: u64, p: u64) -> bool
    requires { Room p (length target.now) × Measured pair w target.now k }
    ensures { (D : ℕ) → Shows w target.now k D → digits ≡ size D → Ones p D result }
{
    if p <= digits {
        remnant::ones_first(w, target, p)
    } else {
        remnant::ones_first(w, target, digits)
    }
}

// Whether a sum is too large at both ends.
fn refused_sum(way: Way, x: Rest, w: Window, target: &[u64], p: u64, pair: Pair, k: u64) -> Verdict
    requires { Room p (length target.now) × Measured pair w target.now k }
    ensures { (D : ℕ) → Shows w target.now k D → Moderate pair k D → RestOf p D x → pair.same ≡ true → result ≡ refused_as pair (refused_by (theory_way way) p pair k D) }
{
    if !bounds::is_high(pair.top) {
        return Verdict::Open;
    }
    let digits = digits_in(w, target, pair, k);
    let ones = ones_in(w, target, pair, k, digits, p);
    if bounds::too_large(way, x, digits, ones, p, pair, k) {
        Verdict::Refused(6)
    } else {
        Verdict::Open
    }
}

// Whether a difference is too small at both ends. The unread second operand may still cancel much.
fn refused_difference(
    way: Way,
    x: Rest,
    w: Window,
    target: &[u64],
    p: u64,
    pair: Pair,
    k: u64,
) -> Verdict
    requires { Room p (length target.now) × Measured pair w target.now k }
    ensures { (D : ℕ) → Shows w target.now k D → Moderate pair k D → RestOf p D x → pair.same ≡ false → result ≡ refused_as pair (refused_by (theory_way way) p pair k D) }
{
    if 64 * k <= pair.gap {
        return Verdict::Open;
    }
    if !bounds::is_low(pair.top, k) {
        return Verdict::Open;
    }
    let digits = digits_in(w, target, pair, k);
    let ones = ones_in(w, target, pair, k, digits, p);
    if bounds::too_small(way, x, digits, ones, p, pair, k) {
        Verdict::Refused(7)
    } else {
        Verdict::Open
    }
}

// Whether both ends are refused alike, where they are not settled.
fn refused(way: Way, x: Rest, w: Window, target: &[u64], p: u64, pair: Pair, k: u64) -> Verdict
    requires { Room p (length target.now) × Measured pair w target.now k }
    ensures { (D : ℕ) → Shows w target.now k D → Moderate pair k D → RestOf p D x → result ≡ refused_as pair (refused_by (theory_way way) p pair k D) }
{
    if pair.same {
        refused_sum(way, x, w, target, p, pair, k)
    } else {
        refused_difference(way, x, w, target, p, pair, k)
    }
}

// The least sum is D and perhaps some more.
fn judge_plus(
    way: Way,
    w: Window,
    target: &[u64],
    p: u64,
    pair: Pair,
    k: u64,
    least: bool,
    next: bool,
    most: bool,
) -> Verdict
    requires { Room p (length target.now) × Measured pair w target.now k }
    ensures { (D : ℕ) → Shows w target.now k D → Moderate pair k D → result ≡ verdict_as pair (settled (theory_way way) p D least (bit next) most) least (refused_by (theory_way way) p pair k D) }
{
    let x = remnant::rest_of(w, target, p);
    if lean::settled_plus(way, x, least, next, most) {
        Verdict::Fixed(least)
    } else {
        refused(way, x, w, target, p, pair, k)
    }
}

// The least sum lies just above the unit below D.
fn judge_minus(
    way: Way,
    w: Window,
    target: &[u64],
    p: u64,
    pair: Pair,
    k: u64,
    most: bool,
) -> Verdict
    requires { Room p (length target.now) × Measured pair w target.now k }
    ensures { (D : ℕ) → Shows w target.now k D → Moderate pair k D → result ≡ verdict_as pair (settled (theory_way way) p (D - 1) true 1 most) most (refused_by (theory_way way) p pair k D) }
{
    let x = remnant::rest_of(w, target, p);
    if lean::settled_minus(way, x, most) {
        Verdict::Fixed(most)
    } else {
        refused(way, x, w, target, p, pair, k)
    }
}

// All of the first operand is read, and nothing of the second.
fn judge_hole(way: Way, p: u64, pair: Pair, first: &[u64]) -> Verdict
    requires { InHole pair first.now × (p ≤ 2 ^ 20) }
    ensures { (o : Mode) (a b : Bool) → Signs o a b pair way → result ≡ cond (hole_by_size o p a b (value_of first.now / 2 ^ spare_bits pair.first) (pair.gap - pair.first)) verdict.InHole verdict.Open }
{
    if hole::hole_fixed(way, p, pair, first) {
        Verdict::InHole
    } else {
        Verdict::Open
    }
}

// What k columns say.
fn judge(way: Way, w: Window, target: &[u64], p: u64, pair: Pair, first: &[u64], k: u64) -> Verdict
    requires { Room p (length target.now) × Arrived way pair first.now w target.now k }
    ensures { (o : Mode) (x y : Operand) → Held o x y way pair first.now y.limbs → Reached x y w target.now k → Judged o p x y k result }
{
    let row = settle::row_of(pair, k);
    match row {
        Row::Exact => Verdict::Fixed(false),
        Row::Hole => judge_hole(way, p, pair, first),
        Row::Plus { least, next, most } => judge_plus(
            way, w, target, p, pair, k, least, next, most,
        ),
        Row::Minus { most } => judge_minus(way, w, target, p, pair, k, most),
    }
}

fn is_open(verdict: Verdict) -> bool
    ensures { result ≡ open? verdict }
{
    match verdict {
        Verdict::Open => true,
        Verdict::Fixed(_) => false,
        Verdict::InHole => false,
        Verdict::Refused(_) => false,
    }
}

// Column k of the second operand; of none it is 0.
fn second_column(pair: Pair, second: &[u64], k: u64) -> u64
    ensures { result ≡ cond (eqb pair.second 0) 0 (column_of k pair.gap second.now) }
{
    if pair.second == 0 {
        0
    } else {
        columns::column(second, pair.second, pair.gap, k)
    }
}

// One column more.
fn step(pair: Pair, first: &[u64], second: &[u64], w: Window, k: u64, target: &mut [u64]) -> Window
    requires { Fits w target.old × (w.skipped + 1 < 2 ^ 64) }
    ensures { (o : Mode) (p : ℕ) (x y : Operand) (toward : code.Way) → Held o x y toward pair first.now second.now → Going o p x y w target.old k → Reached x y result target.new (k + 1) }
{
    let a = columns::column(first, pair.first, 0, k);
    let b = second_column(pair, second, k);
    if pair.same {
        walk::append_sum(w, target, a, b)
    } else {
        walk::append_difference(w, target, a, b)
    }
}

// Walks on after k columns that fix nothing. It calls itself, so that no invariant of a loop says its contract once more.
fn descend(
    way: Way,
    p: u64,
    pair: Pair,
    first: &[u64],
    second: &[u64],
    w: Window,
    k: u64,
    target: &mut [u64],
) -> Walked
    requires { Room p (length target.old) × Underway p way pair first.now second.now w target.old k }
    ensures { (o : Mode) (x y : Operand) → Held o x y way pair first.now second.now → Going o p x y w target.old k → Stopped o p x y result target.new }
{
    let next = step(pair, first, second, w, k, target);
    let columns = k + 1;
    let verdict = judge(way, next, target, p, pair, first, columns);
    if is_open(verdict) {
        return descend(way, p, pair, first, second, next, columns, target);
    }
    Walked {
        window: next,
        columns: columns,
        verdict: verdict,
    }
}

// Walks on after k columns, of which one fewer fixes nothing.
fn walk_on(
    way: Way,
    p: u64,
    pair: Pair,
    first: &[u64],
    second: &[u64],
    w: Window,
    k: u64,
    target: &mut [u64],
) -> Walked
    requires { Room p (length target.old) × Arriving p way pair first.now second.now w target.old k }
    ensures { (o : Mode) (x y : Operand) → Held o x y way pair first.now second.now → Reached x y w target.old k → (1 < k → decide_at o p x y (k - 1) ≡ false) → Stopped o p x y result target.new }
{
    let verdict = judge(way, w, target, p, pair, first, k);
    if is_open(verdict) {
        return descend(way, p, pair, first, second, w, k, target);
    }
    Walked {
        window: w,
        columns: k,
        verdict: verdict,
    }
}

// Walks column by column from one on.
fn walk_slowly(
    way: Way,
    p: u64,
    pair: Pair,
    first: &[u64],
    second: &[u64],
    from: u64,
    target: &mut [u64],
) -> Walked
    requires { Room p (length target.old) × Begun way pair first.now second.now from }
    ensures { (o : Mode) (x y : Operand) → Held o x y way pair first.now second.now → Course x y from → Stopped o p x y result target.new }
{
    let w = walk::start(from);
    descend(way, p, pair, first, second, w, from, target)
}

// Fills the target at once, and walks on.
fn walk_promptly(
    way: Way,
    p: u64,
    pair: Pair,
    first: &[u64],
    second: &[u64],
    from: u64,
    target: &mut [u64],
) -> Walked
    requires { Room p (length target.old) × Begun way pair first.now second.now from × Prompt pair (length first.now) (length second.now) from (length target.old) }
    ensures { (o : Mode) (x y : Operand) → Held o x y way pair first.now second.now → Course x y from → Stopped o p x y result target.new }
{
    let w = fill(pair, first, second, from, target);
    if has_lead(w, target) {
        let k = from + (target.len() as u64);
        walk_on(way, p, pair, first, second, w, k, target)
    } else {
        walk_slowly(way, p, pair, first, second, from, target)
    }
}

// Walks from a column on, until the answer is fixed. `from` columns are passed over.
pub fn walk_down(
    way: Way,
    p: u64,
    pair: Pair,
    first: &[u64],
    second: &[u64],
    from: u64,
    target: &mut [u64],
) -> Walked
    requires { Room p (length target.old) × Begun way pair first.now second.now from }
    ensures { (o : Mode) (x y : Operand) → Course x y from → pair ≡ pair_of x y → first.now ≡ x.limbs → (y.is_zero ≡ false → second.now ≡ y.limbs) → theory_way way ≡ Rattle.rounding.specs.Mode.way o x.negative → Stopped o p x y result target.new }
{
    if is_prompt(pair, first.len(), second.len(), from, target.len()) {
        walk_promptly(way, p, pair, first, second, from, target)
    } else {
        walk_slowly(way, p, pair, first, second, from, target)
    }
}
