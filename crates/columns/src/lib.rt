// The columns of an operand: 64 digits each, from the top of the larger operand down.
#![tactic(auto)]

ghost use Rattle.std.specs.Prelude.{◌≡◌};
ghost use Rattle.columns.specs.Column.{column_of, limb_below};

use shifts::moved;

// The limb that stands i limbs below the top, 0 past the lowest.
fn limb_below_top(limbs: &[u64], precision: u64, i: u64) -> u64
    ensures { result ≡ limb_below i limbs.now }
{
    let n = limbs.len() as u64;
    if i < n {
        let at = (n - 1 - i) as usize;
        checks::fetch(limbs, precision, at)
    } else {
        0
    }
}

// Column j of an operand whose first digit stands gap digits below the top of column 0.
//
//     column     |      0      |      1      |      2      |
//     operand    | gap  |  top limb   |  next limb  | ..
//
pub fn column(limbs: &[u64], precision: u64, gap: u64, j: u64) -> u64
    ensures { result ≡ column_of j gap limbs.now }
{
    let whole = gap / 64;
    let bits = gap % 64;
    if j < whole {
        return 0;
    }
    let i = j - whole;
    let low = limb_below_top(limbs, precision, i);
    if bits == 0 {
        return low;
    }
    if i == 0 {
        return low >> bits;
    }
    let high = limb_below_top(limbs, precision, i - 1);
    moved(low, high, bits)
}
