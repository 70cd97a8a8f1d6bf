// Pieces of the input taken, and what is printed for the groups that end in them.
ghost use Rattle.std.specs.Prelude.{◌≡◌, true, ◌≤◌, length, take};
ghost use Rattle.desklines.specs.Written.{Answers, Tells};
ghost use Rattle.desklines.specs.Answer.{longest_answer};
ghost use Rattle.cutting.specs.Held.{SameBuffers};
ghost use Rattle.stream.specs.Desk.{cut_short};
ghost use Rattle.stream.specs.Serving.{state_of, state_held, is_ready, ServedBy, Finished};

use crate::answering::answer;
use checks::{Place, Refusal, Rule};
use cutting::{Lines, line_room};

// How many bytes of a piece were taken, and how many bytes were printed.
#[derive(Clone, Copy)]
pub struct Served {
    pub taken: usize,
    pub told: usize,
}

// How many lines of a group are whole, and how many bytes of each line are held, of buffers that are lent to be read.
#[derive(Clone, Copy)]
pub struct Held {
    pub lines: usize,
    pub first: usize,
    pub second: usize,
    pub third: usize,
}

// No group is whole yet, the buffers have their size, and there is room for any answer.
fn ready_held(held: Held, first: &[u8], second: &[u8], third: &[u8], out: &[u8]) -> bool
    ensures { result ≡ is_ready (state_held held first.now second.now third.now) out.now }
{
    let room = line_room();
    let most = desklines::longest_answer();
    if 3 <= held.lines {
        return false;
    }
    if first.len() != room {
        return false;
    }
    if second.len() != room {
        return false;
    }
    if third.len() != room {
        return false;
    }
    most <= out.len()
}

// The same of lines that are lent to be written.
fn ready(lines: &Lines, out: &[u8]) -> bool
    ensures { result ≡ is_ready (state_of lines.now) out.now }
{
    let held = Held {
        lines: lines.whole,
        first: lines.first.held,
        second: lines.second.held,
        third: lines.third.held,
    };
    ready_held(
        held,
        &*lines.first.bytes,
        &*lines.second.bytes,
        &*lines.third.bytes,
        out,
    )
}

// The answer of a whole group that is held.
fn answer_held(lines: &Lines, out: &mut [u8]) -> usize
    ensures { Answers (take lines.now.first.held lines.now.first.bytes.now) (take lines.now.second.held lines.now.second.bytes.now) (take lines.now.third.held lines.now.third.bytes.now) out.old out.new result }
{
    answer(
        lines.first.text(),
        lines.second.text(),
        lines.third.text(),
        out,
    )
}

// Group after group, as long as there is room for a longest answer.
fn serve_groups(lines: &mut Lines, bytes: &[u8], out: &mut [u8]) -> Served
    requires { is_ready (state_of lines.old) out.old ≡ true }
    ensures served { ServedBy (state_of lines.old) bytes.now (state_of lines.new) out.old out.new result }
    ensures same { SameBuffers lines.old lines.new }
{
    let most = desklines::longest_answer();
    let mut taken: usize = 0;
    let mut told: usize = 0;
    // A turn takes as many bytes as its group does, which no iterator counts.
    while taken < bytes.len() {
        if out.len() - told < most {
            return Served { taken, told };
        }
        taken += lines.cut(&bytes[taken..]);
        if lines.whole < 3 {
            return Served { taken, told };
        }
        told += answer_held(lines, &mut out[told..]);
        lines.clear();
    }
    Served { taken, told }
}

// Takes bytes of a piece, and prints the answers of the groups that end in it.
pub fn serve(lines: &mut Lines, bytes: &[u8], out: &mut [u8]) -> Served
    ensures served { ServedBy (state_of lines.old) bytes.now (state_of lines.new) out.old out.new result }
    ensures same { SameBuffers lines.old lines.new }
{
    if !ready(lines, out) {
        return Served { taken: 0, told: 0 };
    }
    serve_groups(lines, bytes, out)
}

// A group that the input cuts short: 8 at its first missing line.
fn cut_short(missing: Place, out: &mut [u8]) -> usize
    requires { longest_answer ≤ length out.old }
    ensures { Tells (cut_short missing) out.old out.new result }
{
    desklines::refuse(
        Refusal {
            rule: Rule::LineSize,
            place: missing,
        },
        out,
    )
}

// The bytes of a line that are held, counted within its buffer.
fn part(line: &[u8], held: usize) -> &[u8]
    ensures { result.now ≡ take held line.now }
{
    let end = held.min(line.len());
    &line[..end]
}

// What is printed at the end of the input, of lines in buffers that are lent to be read.
pub fn finish_held(held: Held, first: &[u8], second: &[u8], third: &[u8], out: &mut [u8]) -> usize
    ensures { Finished (state_held held first.now second.now third.now) out.old out.new result }
{
    if !ready_held(held, first, second, third, out) {
        return 0;
    }
    if held.lines == 0 {
        if held.first == 0 {
            return 0;
        }
        return cut_short(Place::Second, out);
    }
    if held.lines == 1 {
        if held.second == 0 {
            return cut_short(Place::Second, out);
        }
        return cut_short(Place::Target, out);
    }
    if held.third == 0 {
        return cut_short(Place::Target, out);
    }
    answer(
        part(first, held.first),
        part(second, held.second),
        part(third, held.third),
        out,
    )
}

// What is printed at the end of the input.
pub fn finish(lines: &Lines, out: &mut [u8]) -> usize
    ensures { Finished (state_of lines.now) out.old out.new result }
{
    let held = Held {
        lines: lines.whole,
        first: lines.first.held,
        second: lines.second.held,
        third: lines.third.held,
    };
    finish_held(
        held,
        &*lines.first.bytes,
        &*lines.second.bytes,
        &*lines.third.bytes,
        out,
    )
}
