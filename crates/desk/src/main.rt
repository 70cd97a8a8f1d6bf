// The desk program: groups of three lines from standard input, an answer for each to standard output.
#![tactic(auto)]

use cutting::{LINE_ROOM, Lines};
use std::io;
use std::io::{Read, Write};

// How many bytes of the input are read at a time, at most.
const PIECE_ROOM: usize = 65536;

// The room for what is printed for a piece.
const OUT_ROOM: usize = 65536;

// Serves a piece of the input, and writes what is printed whenever there may be no room for more. Whether all was taken.
fn serve_piece<W: Write>(
    lines: &mut Lines,
    piece: &[u8],
    out: &mut [u8],
    output: &mut W,
) -> io::Result<bool> {
    let mut rest = piece;
    while !rest.is_empty() {
        let served = stream::serve(lines, rest, out);
        output.write_all(&out[..served.told])?;
        if served.taken == 0 {
            return Ok(false);
        }
        rest = &rest[served.taken..];
    }
    Ok(true)
}

// The end of the input.
fn finish<W: Write>(lines: &Lines, out: &mut [u8], output: &mut W) -> io::Result<()> {
    let told = stream::finish(lines, out);
    output.write_all(&out[..told])
}

// Piece after piece, in fixed memory, to the end of the input or to the first write that fails. A read that fails ends the input.
fn run<R: Read, W: Write>(input: &mut R, output: &mut W) -> io::Result<()> {
    let mut piece = [0u8; PIECE_ROOM];
    let mut first = [0u8; LINE_ROOM];
    let mut second = [0u8; LINE_ROOM];
    let mut third = [0u8; LINE_ROOM];
    let mut out = [0u8; OUT_ROOM];
    let mut lines = Lines::new(&mut first, &mut second, &mut third);
    // Nothing says that an input ends, so a loop to its end is counted.
    for _ in 0..u64::MAX {
        let got = input.read(&mut piece).unwrap_or(0);
        if got == 0 {
            break;
        }
        if !serve_piece(&mut lines, &piece[..got], &mut out, output)? {
            return Ok(());
        }
    }
    finish(&lines, &mut out, output)
}

fn main(rt: HostRuntime) -> io::Result<()> {
    run(&mut rt.stdin(), &mut rt.stdout())
}
