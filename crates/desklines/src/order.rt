// The desk line: the operation, the target's precision and the mode.
ghost use Rattle.std.specs.Prelude.{◌≡◌};
ghost use Rattle.checks.specs.declared.Place.TheVariants.{Target};
ghost use Rattle.desklines.specs.Order.{operation_in, order_of};

use checks::{Place, Refusal, Rule};
use lines::field_at;

// What is done with the two numbers.
#[derive(Clone, Copy, Debug, PartialEq, Eq)]
pub enum Operation {
    Add,
    Subtract,
}

// What a desk line asks. The mode is a number: it is judged after the line, by the first check of the sum.
#[derive(Clone, Copy)]
pub struct Request {
    pub operation: Operation,
    pub precision: u64,
    pub mode: u8,
}

// Eight digits and LF.
const ORDER_SIZE: usize = 9;

// A fault of the desk line.
fn fault(rule: Rule) -> Refusal
    ensures { result ≡ record { rule = rule; place = Target } }
{
    Refusal {
        rule,
        place: Place::Target,
    }
}

// 1 subtracts.
fn asked_operation(n: u64) -> Operation
    ensures { result ≡ operation_in n }
{
    if n == 1 {
        return Operation::Subtract;
    }
    Operation::Add
}

// 8, 9 and 11, in that order.
pub fn read_order(line: &[u8]) -> Result<Request, Refusal>
    ensures { result ≡ order_of line.now }
{
    if line.len() != ORDER_SIZE {
        return Err(fault(Rule::LineSize));
    }
    if !lines::digits_hold(line) {
        return Err(fault(Rule::LineByte));
    }
    let asked = field_at(line, 0, 2);
    if 1 < asked {
        return Err(fault(Rule::Operation));
    }
    Ok(Request {
        operation: asked_operation(asked),
        precision: field_at(line, 2, 4),
        mode: field_at(line, 6, 2) as u8,
    })
}
