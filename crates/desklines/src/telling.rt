// The lines that are printed, each from a place of the output on.
ghost use Rattle.std.specs.Prelude.{◌≡◌, ◌+◌, ◌≤◌, ◌<◌, ◌∷◌, ◌++◌, [], length, IfOk};
ghost use Rattle.text.specs.Digits.{numeral};
ghost use Rattle.lines.specs.Line.{line_feed, line_of};
ghost use Rattle.desklines.specs.declared.telling.Numbered.{Numbered};
ghost use Rattle.desklines.specs.Answer.{numbered, numbered_line, ternary_byte, report_line, sum_lines, report_size, longest_answer};
ghost use Rattle.numbers.specs.Operand.{WellFormed};
ghost use Rattle.checks.specs.Number.{operand_of};
ghost use Rattle.desklines.specs.Written.{Tells, Appends, RefusesNumbered};

use checks::Refusal;
use reports::{Rounded, Sum};

// A refusal by its numbers: any two, also such as no rule or no place has.
#[derive(Clone, Copy, Debug, PartialEq, Eq)]
pub struct Numbered {
    pub rule: u8,
    pub place: u8,
}

// What a caller may hand over for a refusal: the refusal, or two numbers.
pub trait AsNumbered {
    ghost numbered_in: { Self → Numbered };

    fn as_numbered(self) -> Numbered
        ensures { result ≡ numbered_in self };
}

impl AsNumbered for Refusal {
    ghost numbered_in = { numbered };

    fn as_numbered(self) -> Numbered {
        Numbered {
            rule: self.rule.number(),
            place: self.place.number(),
        }
    }
}

impl AsNumbered for Numbered {
    ghost numbered_in = { λ numbers. numbers };

    fn as_numbered(self) -> Numbered {
        self
    }
}

// Ternary value, depth and limbs used, in hexadecimal, with LF.
const REPORT: usize = 11;

// No answer is longer.
pub const LONGEST_ANSWER: usize = lines::LONGEST_LINE + REPORT;

pub fn longest_answer() -> usize
    ensures { result ≡ longest_answer }
{
    LONGEST_ANSWER
}

// The last n digits of a value; where the next part begins. The place stands beside the room, since a value of both would have
// to say in each clause that it still lends that room.
fn put(out: &mut [u8], at: usize, n: usize, value: u64) -> usize
    requires { at + n ≤ length out.old }
    ensures { Appends (numeral n value) n at out.old out.new result }
{
    let end = at + n;
    text::write_digits(&mut out[at..end], value);
    end
}

// LF.
fn put_end(out: &mut [u8], at: usize) -> usize
    requires { at < length out.old }
    ensures { Appends (line_feed ∷ []) 1 at out.old out.new result }
{
    out[at] = 10;
    at + 1
}

// A refusal's line.
pub fn put_refusal<N: AsNumbered>(refusal: N, out: &mut [u8]) -> usize
    requires { longest_answer ≤ length out.old }
    ensures { Tells (numbered_line (N.numbered_in refusal)) out.old out.new result }
{
    let numbers = refusal.as_numbered();
    let a = put(out, 0, 2, 238);
    let b = put(out, a, 2, numbers.rule as u64);
    let c = put(out, b, 2, numbers.place as u64);
    put_end(out, c)
}

// -1, 0 and 1 in two's complement. By sign, since the clause is over every number of the type.
fn ternary_byte(t: i8) -> u64
    ensures { result ≡ ternary_byte t }
{
    if t < 0 {
        return 255;
    }
    if 0 < t {
        return 1;
    }
    0
}

// The line below a result.
fn put_report(s: Sum, rounded: Rounded, out: &mut [u8], at: usize) -> usize
    requires { at + report_size ≤ length out.old }
    ensures { Appends (report_line rounded.ternary s) report_size at out.old out.new result }
{
    let a = put(out, at, 2, ternary_byte(rounded.ternary));
    let b = put(out, a, 4, s.depth);
    let c = put(out, b, 2, s.first);
    let d = put(out, c, 2, s.second);
    put_end(out, d)
}

// A result with its report: what is of good form the writer accepts.
fn put_result(s: Sum, rounded: Rounded, limbs: &[u64], out: &mut [u8]) -> usize
    requires { (longest_answer ≤ length out.old) × WellFormed (operand_of rounded.number limbs.now) }
    ensures { Tells (line_of rounded.number limbs.now ++ report_line rounded.ternary s) out.old out.new result }
{
    match writer::write_line(rounded.number, limbs, out) {
        Ok(count) => put_report(s, rounded, out, count),
        Err(refusal) => put_refusal(refusal, out),
    }
}

// A result with its report, or its refusal.
pub fn put_sum(s: Sum, limbs: &[u64], out: &mut [u8]) -> usize
    requires { (longest_answer ≤ length out.old) × IfOk s.answer (λ a. WellFormed (operand_of a.number limbs.now)) }
    ensures { Tells (sum_lines s limbs.now) out.old out.new result }
{
    match s.answer {
        Ok(rounded) => put_result(s, rounded, limbs, out),
        Err(refusal) => put_refusal(refusal, out),
    }
}

// A refusal's line alone; nothing where the room is too short.
pub fn refuse<N: AsNumbered>(refusal: N, out: &mut [u8]) -> usize
    ensures { RefusesNumbered (N.numbered_in refusal) out.old out.new result }
{
    let numbers = refusal.as_numbered();
    if out.len() < longest_answer() {
        return 0;
    }
    put_refusal(numbers, out)
}
