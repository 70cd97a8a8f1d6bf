// The answer of a group: line after line, and then the sum.
ghost use Rattle.std.specs.Prelude.{◌≡◌, ◌≤◌, length, MatchResult, Err};
ghost use Rattle.reports.specs.Summed.{Summed};
ghost use Rattle.desklines.specs.Order.{operation_of};
ghost use Rattle.desklines.specs.Answer.{group_refusal, longest_answer};
ghost use Rattle.desklines.specs.Written.{AnswerTold, Answers};

use crate::number::{limb_count, read_number};
use checks::{Number, Place, Refusal};
use desklines::{Operation, Request, longest_answer, put_refusal, put_sum, read_order};
use lines::MOST_LIMBS;
use reports::Sum;

// A line's number, with its limbs.
#[derive(Clone, Copy)]
struct Operand<'a> {
    number: Number,
    limbs: &'a [u64],
}

// The sum or the difference.
fn sum(request: Request, x: Operand, y: Operand, target: &mut [u64]) -> Sum
    ensures { Summed (operation_of request.operation) request.mode x.entry.number x.entry.limbs.now y.entry.number y.entry.limbs.now request.precision target.old target.new result }
{
    let mode = request.mode;
    let p = request.precision;
    match request.operation {
        Operation::Add => sums::add(mode, x.number, x.limbs, y.number, y.limbs, p, target),
        Operation::Subtract => sums::subtract(
            mode, x.number, x.limbs, y.number, y.limbs, p, target,
        ),
    }
}

// What a group prints, or what refuses it before its sum.
fn answer_lines(first: &[u8], second: &[u8], third: &[u8], out: &mut [u8]) -> Result<usize, Refusal>
    requires { longest_answer ≤ length out.old }
    ensures { MatchResult result (λ n. AnswerTold first.now second.now third.now out.old out.new n) (λ r. (group_refusal first.now second.now third.now ≡ Err r) × (out.new ≡ out.old)) }
{
    let mut xl = [0u64; MOST_LIMBS];
    let mut yl = [0u64; MOST_LIMBS];
    let mut target = [0u64; MOST_LIMBS];
    let x = read_number(first, Place::First, &mut xl)?;
    let y = read_number(second, Place::Second, &mut yl)?;
    let request = read_order(third)?;
    let n = limb_count(x.precision);
    let m = limb_count(y.precision);
    let k = limb_count(request.precision);
    let first_operand = Operand {
        number: x,
        limbs: &xl[0..n],
    };
    let second_operand = Operand {
        number: y,
        limbs: &yl[0..m],
    };
    let s = sum(request, first_operand, second_operand, &mut target[0..k]);
    Ok(put_sum(s, &target[0..k], out))
}

// Prints a group's answer at the start of the room; nothing where the room is too short for any.
pub fn answer(first: &[u8], second: &[u8], third: &[u8], out: &mut [u8]) -> usize
    ensures { Answers first.now second.now third.now out.old out.new result }
{
    if out.len() < longest_answer() {
        return 0;
    }
    match answer_lines(first, second, third, out) {
        Ok(count) => count,
        Err(refusal) => put_refusal(refusal, out),
    }
}
