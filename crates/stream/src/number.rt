// A number's line, read into limbs of its own.
ghost use Rattle.std.specs.Prelude.{◌≡◌, min, length, MatchResult, Err};
ghost use Rattle.numbers.specs.Limits.{limbs_for};
ghost use Rattle.desklines.specs.Answer.{placed, number_refusal};
ghost use Rattle.desklines.specs.Written.{most_limbs, NumberRead};

use checks::{Number, Place, Refusal, Rule};
use lines::MOST_LIMBS;

fn most_limbs() -> usize
    ensures { result ≡ most_limbs }
{
    MOST_LIMBS
}

// How many limbs hold p digits, as far as there are.
pub(crate) fn limb_count(p: u64) -> usize
    ensures { result ≡ min (limbs_for p) most_limbs }
{
    (checks::limbs_for(p) as usize).min(most_limbs())
}

// A refusal of a line has the line's place.
fn placed(place: Place, read: Result<Number, Refusal>) -> Result<Number, Refusal>
    ensures { result ≡ placed place read }
{
    match read {
        Ok(number) => Ok(number),
        Err(refusal) => Err(Refusal {
            rule: refusal.rule,
            place,
        }),
    }
}

// The number of a line, its limbs at the start of the room; a refusal has the line's place.
pub(crate) fn read_number(line: &[u8], place: Place, room: &mut [u64]) -> Result<Number, Refusal>
    requires { length room.old ≡ most_limbs }
    ensures { MatchResult result (λ x. NumberRead place line.now room.new x) (λ r. number_refusal place line.now ≡ Err r) }
{
    if lines::longest_line() < line.len() {
        return Err(Refusal {
            rule: Rule::LineSize,
            place,
        });
    }
    let number = placed(place, reader::read_head(line))?;
    let n = limb_count(number.precision);
    placed(place, reader::read_line(line, &mut room[0..n]))
}
