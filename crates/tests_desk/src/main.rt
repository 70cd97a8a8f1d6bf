// Runs the stored inputs of the desk, one a line on standard input in lowercase hexadecimal, each split into pieces in
// four ways, and prints what the desk prints for each split, after a line `# 17, pieces of 7` that names it.
#![tactic(auto)]

mod pieces; // pieces.rt: one input, split in four ways

use std::io;
use vectors::Fields;

// How many bytes an input has at most, and how many digits of a line count, two for a byte.
const INPUT_ROOM: usize = 32768;

const LINE_ROOM: usize = 65536;

// The bytes of an input, as far as there is room.
fn bytes_of<'a>(digits: &[u8], room: &'a mut [u8; INPUT_ROOM]) -> &'a [u8] {
    for (byte, two) in room.iter_mut().zip(digits.chunks(2)) {
        *byte = Fields { rest: two }.byte();
    }
    &room[..digits.len().div_ceil(2).min(INPUT_ROOM)]
}

fn main(rt: HostRuntime) -> io::Result<()> {
    // Inputs are counted from 1.
    let mut input = 0u64;
    let mut room = [0; INPUT_ROOM];
    vectors::answer_lines_in(
        &mut rt.stdin(),
        &mut rt.stdout(),
        &mut [0; LINE_ROOM],
        |digits, output| {
            input = input.wrapping_add(1);
            pieces::run_input(input, bytes_of(digits, &mut room), output)
        },
    )
}
