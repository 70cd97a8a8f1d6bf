// One case: a line that asks for a sum, and the line that answers it.
ghost use Rattle.std.specs.Prelude.{◌+◌, ◌≤◌, max, length};
ghost use Rattle.std.specs.Io.Cursor.{cursor_position};

use reports::{Rounded, Sum};
use std::io;
use std::io::Write;
use vectors::{
    ANSWER_ROOM, Answer, Fields, LIMB_ROOM, NO_NUMBER, NumberFields, RefusalFields, put_all,
};

// What a line asks of its numbers: 0 adds, 1 subtracts, any other re-rounds the first one.
#[derive(Clone, Copy)]
enum Operation {
    Add,
    Subtract,
    Reround,
}

impl From<u8> for Operation {
    fn from(number: u8) -> Operation {
        match number {
            0 => Operation::Add,
            1 => Operation::Subtract,
            _ => Operation::Reround,
        }
    }
}

// Refusal, number, ternary value in two's complement, depth, limbs used of each operand, target.
fn put_sum(s: Sum, target: &[u64], answer: &mut Answer) -> io::Result<()> {
    let Sum {
        depth,
        first,
        second,
        answer: sum,
    } = s;
    let refusal = RefusalFields(sum.err());
    let Rounded { number, ternary } = sum.unwrap_or(Rounded {
        number: NO_NUMBER,
        ternary: 0,
    });
    let number = NumberFields(number);
    write!(answer, "{refusal}{number}")?;
    put_all(answer, &[ternary.cast_unsigned()], 2)?;
    put_all(answer, &[depth, first, second], 4)?;
    put_all(answer, target, 16)?;
    answer.write_all(b"\n")
}

// A line asks by operation (2), mode (2), target precision (16), target limb count (4), fill (2), then the two numbers.
// No answer where the target has not so many limbs.
fn run_case(line: &[u8], answer: &mut Answer)
    ensures { cursor_position answer.new ≤ 4096 }
{
    let mut fields = Fields { rest: line };
    let operation = Operation::from(fields.byte());
    let mode = fields.byte();
    let precision = fields.word();
    let count = usize::from(fields.pair());
    let mut room = vectors::filled(u64::from(fields.byte()));
    let Some(target) = room.get_mut(..count) else {
        answer.set_position(0);
        return;
    };
    let mut x_room = [0u64; LIMB_ROOM];
    let mut y_room = [0u64; LIMB_ROOM];
    let x = fields.number();
    let xl = fields.limbs(&mut x_room);
    let y = fields.number();
    let yl = fields.limbs(&mut y_room);
    let sum = match operation {
        Operation::Add => sums::add(mode, x, xl, y, yl, precision, target),
        Operation::Subtract => sums::subtract(mode, x, xl, y, yl, precision, target),
        Operation::Reround => sums::reround(mode, x, xl, precision, target),
    };
    let _cut = put_sum(sum, target, answer);
    answer.set_position(answer.position().min(ANSWER_ROOM));
}

// A comment as it is, and a case's answer.
pub(crate) fn answer_line(line: &[u8], answer: &mut Answer)
    ensures { cursor_position answer.new ≤ max 4096 (length line.now + 1) }
{
    answer.set_position(0);
    if line.starts_with(b"#") {
        let _cut = answer.write(line);
        let _cut = answer.write(b"\n");
    } else {
        run_case(line, answer)
    }
}
