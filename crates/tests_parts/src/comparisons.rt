// Comparisons: for each its refusal, place and order.
ghost use Rattle.std.specs.Prelude.{◌≤◌};
ghost use Rattle.std.specs.Io.Cursor.{cursor_position};

use std::cmp::Ordering;
use std::io::Write;
use vectors::{ANSWER_ROOM, Answer, Fields, LIMB_ROOM, RefusalFields};

// The operation, the mode and the target take 26 digits; then come the two numbers with their limbs. The order stands in
// two's complement, 0 where they are refused.
pub fn run_case(mut fields: Fields, answer: &mut Answer)
    ensures { cursor_position answer.new ≤ 4096 }
{
    let mut x_room = [0u64; LIMB_ROOM];
    let mut y_room = [0u64; LIMB_ROOM];
    fields.skip(26);
    let x = fields.number();
    let xl = fields.limbs(&mut x_room);
    let y = fields.number();
    let yl = fields.limbs(&mut y_room);
    let compared = order::compare(x, xl, y, yl);
    let refusal = RefusalFields(compared.err());
    let order = compared.unwrap_or(Ordering::Equal) as i8;
    let _cut = writeln!(answer, "{refusal}{order:02x}");
    answer.set_position(answer.position().min(ANSWER_ROOM));
}
