// Runs the questions on standard input, one a line, and prints one answer a line. The first byte of a line names the
// part of the kernel that is asked; the fields of its question follow.
#![tactic(auto)]

mod answers; // answers.rt: answers that several parts give
mod comparisons; // comparisons.rt: part 0, two numbers compared
mod conversions; // conversions.rt: part 1, numbers to doubles and back
mod stored_lines; // stored_lines.rt: part 2, numbers to stored lines and back

ghost use Rattle.std.specs.Prelude.{◌≤◌};
ghost use Rattle.std.specs.Io.Cursor.{cursor_position};

use std::io;
use std::io::Write;
use vectors::{ANSWER_BYTES, Answer, Fields, answer_lines_in, answered};

// A line has no more bytes that count.
const LINE_ROOM: usize = 4096;

// The answer of the part that is asked; nothing where there is no such part.
fn run_case(line: &[u8], answer: &mut Answer)
    ensures { cursor_position answer.new ≤ 4096 }
{
    answer.set_position(0);
    if line.len() < 2 {
        return;
    }
    let mut fields = Fields { rest: line };
    match fields.byte() {
        0 => comparisons::run_case(fields, answer),
        1 => conversions::run_case(fields, answer),
        2 => stored_lines::run_case(fields, answer),
        _ => {}
    }
}

fn main(rt: HostRuntime) -> io::Result<()> {
    let mut answer = Answer::new([0; ANSWER_BYTES]);
    answer_lines_in(
        &mut rt.stdin(),
        &mut rt.stdout(),
        &mut [0; LINE_ROOM],
        |line, output| {
            run_case(line, &mut answer);
            output.write_all(answered(&answer))
        },
    )
}
