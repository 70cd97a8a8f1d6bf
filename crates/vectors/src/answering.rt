// Lines from an input, and an answer for each.
ghost use Rattle.std.specs.Prelude.{◌≡◌, ◌≤◌, IfOk, length, take};
ghost use Rattle.std.specs.Io.Cursor.{cursor_position, cursor_inner};

use std::alloc::Global;
use std::io;
use std::io::{BufRead, BufReader, Cursor, Read, Write};

// How many bytes are read at a time.
const CHUNK: usize = 8192;

// An answer of more bytes loses what is over.
pub const ANSWER_ROOM: u64 = 4096;

// The same, and a line feed: a line of as many bytes is printed as it is.
pub const ANSWER_BYTES: usize = 4097;

// What is printed for a line: the bytes before the cursor.
pub type Answer = Cursor<[u8; ANSWER_BYTES]>;

// What is printed.
pub fn answered(answer: &Answer) -> &[u8]
    ensures { result.now ≡ take (cursor_position answer.now) (cursor_inner answer.now) }
{
    let room = answer.get_ref().as_slice();
    let end = (answer.position() as usize).min(room.len());
    &room[..end]
}

// Hands on each line that ends in the chunk, and holds what comes after the last one: how many bytes. A line under way
// loses what there is no room for.
fn answer_chunk<const ROOM: usize, W: Write, F: FnMut(&[u8], &mut W) -> io::Result<()>>(
    chunk: &[u8],
    line: &mut [u8; ROOM],
    start: usize,
    output: &mut W,
    case: &mut F,
) -> io::Result<usize>
    requires held { start ≤ ROOM }
    requires case { (state : F) (line output : _) → length line.now ≤ ROOM → F.pre state line output }
    ensures { IfOk result (λ held. held ≤ ROOM) }
{
    let mut held = start;
    for byte in chunk {
        if *byte == b'\n' {
            case(&line[..held], output)?;
            held = 0;
        } else if held < ROOM {
            line[held] = *byte;
            held += 1;
        }
    }
    Ok(held)
}

// Hands each line of the input, without its line feed, to `case`, which prints the answer. A line of more bytes than
// `line` has loses what is over; bytes after the last line feed are no line. Nothing is allocated.
pub fn answer_lines_in<
    const ROOM: usize,
    R: Read,
    W: Write,
    F: FnMut(&[u8], &mut W) -> io::Result<()>,
>(input: &mut R, output: &mut W, line: &mut [u8; ROOM], mut case: F) -> io::Result<()>
    requires { (state : F) (line output : _) → length line.now ≤ ROOM → F.pre state line output }
{
    let mut chunk = [0u8; CHUNK];
    let mut held = 0;
    // Nothing says that an input ends, so a loop to its end is counted.
    for _ in 0..u64::MAX {
        match input.read(&mut chunk) {
            Ok(0) => break,
            Ok(got) => held = answer_chunk(&chunk[..got], line, held, output, &mut case)?,
            Err(e) if e.kind() == io::ErrorKind::Interrupted => {}
            Err(e) => return Err(e),
        }
    }
    Ok(())
}

// The line under way with its line feed; nothing where the input ends before one.
fn next_line<'a, R: BufRead>(input: &mut R, line: &'a mut Vec<u8>) -> io::Result<Option<&'a [u8]>> {
    line.clear();
    input.read_until(b'\n', line)?;
    Ok(line.strip_suffix(b"\n"))
}

// The same for a room that is known only as it runs, and an answer of any length: prints what `case` writes into the
// answer. A line of more than `room` bytes loses what is over; bytes after the last line feed are no line. A line is
// read whole, and it and its answer stand on the heap.
pub fn answer_lines<R: Read + Drop, W: Write, F: FnMut(&[u8], &mut Vec<u8>) -> io::Result<()>>(
    alloc: Global,
    input: R,
    output: &mut W,
    room: usize,
    mut case: F,
) -> io::Result<()>
    requires { (state : F) (line answer : _) → length line.now ≤ room → F.pre state line answer }
{
    let mut input = BufReader::new(alloc, input)?;
    let mut line = Vec::new(alloc);
    let mut answer = Vec::new(alloc);
    // Nothing says that an input ends, so a loop to its end is counted.
    for _ in 0..u64::MAX {
        let Some(whole) = next_line(&mut input, &mut line)? else {
            break;
        };
        answer.clear();
        case(&whole[..whole.len().min(room)], &mut answer)?;
        output.write_all(&answer)?;
    }
    Ok(())
}
