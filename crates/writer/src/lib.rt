// A number written as a stored line: its checks in their order, then its bytes from the room's start.
#![tactic(auto)]

ghost use Rattle.std.specs.Prelude.{◌≡◌, ◌*◌, ◌≤◌, length};
ghost use Rattle.lines.specs.Line.{kind_byte, head_digits, limb_digits, line_of, shortest_line};
ghost use Rattle.lines.specs.Writing.{onto, written_of, room_after};

use checks::{Kind, Number, Place, Refusal, Rule};
use lines::line_size;

fn kind_byte(kind: Kind, negative: bool) -> u64
    ensures { result ≡ kind_byte kind negative }
{
    match kind {
        Kind::Regular => if negative { 1 } else { 0 },
        Kind::Zero => if negative { 3 } else { 2 },
    }
}

// The kind, the precision and the exponent: the first 14 digits.
fn write_head(x: Number, room: &mut [u8])
    requires { shortest_line ≤ length room.old }
    ensures { room.new ≡ onto (head_digits x) room.old }
{
    let kind = x.kind;
    text::write_digits(&mut room[0..2], kind_byte(kind, x.negative));
    text::write_digits(&mut room[2..6], x.precision);
    text::write_digits(&mut room[6..14], checks::counted_exponent(x.exponent));
}

// The limbs, from the top down, over the whole part: by place, since nothing is known of what is written through chunks once they are given back.
fn write_limbs(limbs: &[u64], part: &mut [u8])
    requires { length part.old ≡ 16 * length limbs.now }
    ensures { part.new ≡ limb_digits limbs.now }
{
    let mut at: usize = 0;
    for i in (0..limbs.len()).rev() {
        let end = at + 16;
        text::write_digits(&mut part[at..end], limbs[i]);
        at = end;
    }
}

// The line of a number of good form, into room that is long enough.
fn write_whole(x: Number, limbs: &[u64], room: &mut [u8])
    requires { length (line_of x limbs.now) ≤ length room.old }
    ensures { room.new ≡ onto (line_of x limbs.now) room.old }
{
    write_head(x, room);
    if checks::is_zero(x) {
        room[14] = 10;
        return;
    }
    let last = 14 + 16 * limbs.len();
    write_limbs(limbs, &mut room[14..last]);
    room[last] = 10;
}

// A number's line at the start of the room; the other bytes stay. How many bytes it has.
pub fn write_line(x: Number, limbs: &[u64], room: &mut [u8]) -> Result<usize, Refusal>
    ensures value { result ≡ written_of x limbs.now (length room.old) }
    ensures room_after { room.new ≡ room_after x limbs.now room.old }
{
    admission::check_alone(x, limbs)?;
    let size = line_size(x);
    if room.len() < size {
        return Err(Refusal {
            rule: Rule::Limbs,
            place: Place::Target,
        });
    }
    write_whole(x, limbs, room);
    Ok(size)
}
