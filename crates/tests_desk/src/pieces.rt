// One input, split into pieces of one size, and what the desk prints for it.
use cutting::{LINE_ROOM, Lines};
use desklines::LONGEST_ANSWER;
use std::io;
use std::io::Write;

// Piece after piece, the last may be shorter, and the end. Stops where nothing of a piece is taken. The digit 0 stands in
// the lines' buffers at first: it would be read where too much of a buffer is.
fn serve_pieces<W: Write>(
    bytes: &[u8],
    size: usize,
    out: &mut [u8],
    output: &mut W,
) -> io::Result<()> {
    let mut first = [b'0'; LINE_ROOM];
    let mut second = [b'0'; LINE_ROOM];
    let mut third = [b'0'; LINE_ROOM];
    let mut lines = Lines::new(&mut first, &mut second, &mut third);
    let mut rest = bytes;
    while !rest.is_empty() {
        let piece = &rest[..rest.len().min(size)];
        let served = stream::serve(&mut lines, piece, out);
        output.write_all(&out[..served.told])?;
        if served.taken == 0 {
            return Ok(());
        }
        rest = &rest[served.taken..];
    }
    let told = stream::finish(&lines, out);
    output.write_all(&out[..told])
}

// An input in one piece, with room for several answers, and in pieces of three sizes, with room for one answer at a time.
pub(crate) fn run_input<W: Write>(input: u64, bytes: &[u8], output: &mut W) -> io::Result<()> {
    writeln!(output, "# {input}, whole")?;
    serve_pieces(bytes, bytes.len(), &mut [0; 4096], output)?;
    for size in [1, 7, LINE_ROOM] {
        writeln!(output, "# {input}, pieces of {size}")?;
        serve_pieces(bytes, size, &mut [0; LONGEST_ANSWER], output)?;
    }
    Ok(())
}
