// Trim.
ghost use Rattle.std.specs.Prelude.{◌≡◌, ◌+◌, length, drop};
ghost use Rattle.parts.specs.Trimmed.{trimmed};

use plain::PlainRun;

// The limbs from the lowest non-zero one to the top, and none if all are 0.
pub fn sheafbuckle_trim(limbs: &[u64]) -> PlainRun
    ensures { (drop result.start limbs.now ≡ trimmed limbs.now) × (result.start + result.count ≡ length limbs.now) }
{
    let part = parts::trim(limbs);
    let count = part.len();
    PlainRun {
        start: limbs.len() - count,
        count: count,
    }
}
