// Stored lines, written and read.
ghost use Rattle.std.specs.Prelude.{◌≤◌};
ghost use Rattle.std.specs.Io.Cursor.{cursor_position};

use crate::answers::put_read;
use checks::{Number, Refusal, Rule};
use std::io;
use std::io::Write;
use vectors::{ANSWER_ROOM, Answer, Fields, LIMB_ROOM, RefusalFields, put_all};

// The most bytes that a line is written into, or read from.
const ROOM: usize = 2048;

// Whether the head alone is what it must be beside the answer of the whole line: the same, or accepted where the limbs are refused.
fn head_agrees(line: &[u8], whole: Result<Number, Refusal>) -> bool {
    let head = reader::read_head(line);
    match whole {
        Err(
            Refusal {
                rule: Rule::Limbs | Rule::Form,
                ..
            },
        ) => head.is_ok(),
        _ => head == whole,
    }
}

// Refusal, how many bytes were written, and the whole room.
fn put_written(
    written: Result<usize, Refusal>,
    room: &[u8],
    answer: &mut Answer,
) -> io::Result<()> {
    let refusal = RefusalFields(written.err());
    let size = written.unwrap_or(0);
    write!(answer, "{refusal}{size:04x}")?;
    put_all(answer, room, 2)?;
    answer.write_all(b"\n")
}

// Room in bytes (4), or all where there are not so many, fill (2), a number. The answer has the whole room.
fn run_write(mut fields: Fields, answer: &mut Answer)
    ensures { cursor_position answer.new ≤ 4096 }
{
    let mut x_room = [0u64; LIMB_ROOM];
    let count = usize::from(fields.pair()).min(ROOM);
    let mut room = [fields.byte(); ROOM];
    let room = &mut room[..count];
    let x = fields.number();
    let xl = fields.limbs(&mut x_room);
    let written = writer::write_line(x, xl, room);
    let _cut = put_written(written, room, answer);
    answer.set_position(answer.position().min(ANSWER_ROOM));
}

// Target limb count (4), or all where there are not so many, fill (2), length (4) and bytes of the line. Prints nothing
// where the head alone does not agree.
fn run_read(mut fields: Fields, answer: &mut Answer)
    ensures { cursor_position answer.new ≤ 4096 }
{
    let count = usize::from(fields.pair()).min(LIMB_ROOM);
    let mut room = vectors::filled(u64::from(fields.byte()));
    let target = &mut room[..count];
    let mut stored = [0u8; ROOM];
    let size = usize::from(fields.pair()).min(ROOM);
    let line = &mut stored[..size];
    for byte in &mut *line {
        *byte = fields.byte();
    }
    let read = reader::read_line(line, target);
    if !head_agrees(line, read) {
        answer.set_position(0);
        return;
    }
    put_read(read, target, answer)
}

// Operation 0 writes, any other reads.
pub fn run_case(mut fields: Fields, answer: &mut Answer)
    ensures { cursor_position answer.new ≤ 4096 }
{
    if fields.byte() == 0 {
        run_write(fields, answer)
    } else {
        run_read(fields, answer)
    }
}
