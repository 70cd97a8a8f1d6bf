// Parts of a run of limbs: one limb, the limbs from a place on, clearing, copying, trimming.
#![tactic(auto)]

ghost use Rattle.std.specs.Prelude.{◌≡◌, ◌+◌, ◌≤◌, ◌==◌, not, length, get_or, drop, replicate, position};
ghost use Rattle.parts.specs.Copied.{CopiedTo};
ghost use Rattle.parts.specs.Trimmed.{trimmed};

// The limb at i, and 0 past the end.
pub fn limb_at(s: &[u64], i: usize) -> u64
    ensures { result ≡ get_or s.now i 0 }
{
    if i < s.len() { s[i] } else { 0 }
}

// The limbs from start on, as a part of the slice, and nothing where start is past the end.
pub fn part_from(s: &[u64], start: usize) -> &[u64]
    ensures { result.now ≡ drop start s.now }
{
    let end = s.len();
    if start < end { &s[start..] } else { &s[end..] }
}

// Sets every limb to 0.
pub fn clear(target: &mut [u64])
    ensures { target.new ≡ replicate (length target.old) 0 }
{
    target.fill(0);
}

// Copies four limbs from limb i on, all read before one is written: the compiler moves two at once.
fn copy_four(target: &mut [u64], source: &[u64], i: usize)
    requires { (i + 4 ≤ length target.old) × CopiedTo i source.now target.old }
    ensures { CopiedTo (i + 4) source.now target.new }
{
    let a = source[i];
    let b = source[i + 1];
    let c = source[i + 2];
    let d = source[i + 3];
    target[i] = a;
    target[i + 1] = b;
    target[i + 2] = c;
    target[i + 3] = d;
}

// Copies the limbs from limb `start` on, one by one.
fn copy_rest(target: &mut [u64], source: &[u64], start: usize)
    requires { (start ≤ length target.old) × CopiedTo start source.now target.old }
    ensures { target.new ≡ source.now }
{
    for i in start..source.len() {
        target[i] = source[i];
    }
}

// Copies limbs into a target of as many. Not by `copy_from_slice`, which calls `memmove`: the archive asks the C library for no more than
// `memset`, and a call takes longer than a few limbs do.
pub fn copy(target: &mut [u64], source: &[u64])
    requires { length source.now ≡ length target.old }
    ensures { target.new ≡ source.now }
{
    let turns = target.len() / 8;
    for turn in 0..turns {
        copy_four(target, source, 8 * turn);
        copy_four(target, source, 8 * turn + 4);
    }
    copy_rest(target, source, 8 * turns)
}

// The place of the lowest limb that is not 0.
fn lowest(s: &[u64]) -> Option<usize>
    ensures { result ≡ position (λ x. not (x == 0)) s.now }
{
    s.iter().position(|limb| *limb != 0)
}

// The caller's own limbs from the lowest non-zero one to the top, and nothing if all are 0.
pub fn trim(s: &[u64]) -> &[u64]
    ensures { result.now ≡ trimmed s.now }
{
    let start = lowest(s).unwrap_or(s.len());
    &s[start..]
}
