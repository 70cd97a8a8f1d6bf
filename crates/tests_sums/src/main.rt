// Runs the sums, differences and re-roundings on standard input, one a line, and prints one answer a line. A line that
// begins with `#` is printed as it is: it tells what the next line asks, and the expected answer, in words.
#![tactic(auto)]

mod case; // case.rt: one case

use std::io;
use std::io::Write;
use vectors::{ANSWER_BYTES, Answer, answer_lines_in, answered};

// A line has no more bytes that count.
const LINE_ROOM: usize = 4096;

fn main(rt: HostRuntime) -> io::Result<()> {
    let mut answer = Answer::new([0; ANSWER_BYTES]);
    answer_lines_in(
        &mut rt.stdin(),
        &mut rt.stdout(),
        &mut [0; LINE_ROOM],
        |line, output| {
            case::answer_line(line, &mut answer);
            output.write_all(answered(&answer))
        },
    )
}
