// The stored line: written, its head read, read.
ghost use Rattle.std.specs.Prelude.{◌≡◌, length};
ghost use Rattle.lines.specs.Reading.{head_of, read_of, target_after};
ghost use Rattle.lines.specs.Writing.{written_of, room_after};
ghost use Rattle.plain.specs.Plain.{number_from};
ghost use Rattle.plain.specs.Answers.{read_told, written_told};

use checks::Number;
use plain::{PlainNumber, PlainRead, PlainWritten};

// The number's line, into the room.
pub fn sheafbuckle_write_line(x: PlainNumber, limbs: &[u64], room: &mut [u8]) -> PlainWritten
    ensures result_value { result ≡ written_told (written_of (number_from x) limbs.now (length room.old)) }
    ensures room_after { room.new ≡ room_after (number_from x) limbs.now room.old }
{
    PlainWritten::from(writer::write_line(Number::from(x), limbs, room))
}

// The number that a line holds, without its limbs.
pub fn sheafbuckle_read_head(line: &[u8]) -> PlainRead
    ensures { result ≡ read_told (head_of line.now) }
{
    PlainRead::from(reader::read_head(line))
}

// The number that a line holds, its limbs into the target.
pub fn sheafbuckle_read_line(line: &[u8], target: &mut [u64]) -> PlainRead
    ensures result_value { result ≡ read_told (read_of (length target.old) line.now) }
    ensures target_after { target.new ≡ target_after line.now target.old }
{
    PlainRead::from(reader::read_line(line, target))
}
