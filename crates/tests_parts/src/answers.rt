// Answers that several parts give.
ghost use Rattle.std.specs.Prelude.{◌≤◌};
ghost use Rattle.std.specs.Io.Cursor.{cursor_position};

use checks::{Number, Refusal};
use std::io;
use std::io::Write;
use vectors::{ANSWER_ROOM, Answer, NO_NUMBER, NumberFields, RefusalFields, put_all};

fn put_fields(
    read: Result<Number, Refusal>,
    target: &[u64],
    answer: &mut Answer,
) -> io::Result<()> {
    let refusal = RefusalFields(read.err());
    let number = NumberFields(read.unwrap_or(NO_NUMBER));
    write!(answer, "{refusal}{number}")?;
    put_all(answer, target, 16)?;
    answer.write_all(b"\n")
}

// The whole answer of a reading: refusal, number and the target at exit.
pub fn put_read(read: Result<Number, Refusal>, target: &[u64], answer: &mut Answer)
    ensures { cursor_position answer.new ≤ 4096 }
{
    let _cut = put_fields(read, target, answer);
    answer.set_position(answer.position().min(ANSWER_ROOM));
}
