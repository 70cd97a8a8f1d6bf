// What C and Rust call: the kernel's own functions, over numbers and slices, with every answer as a struct of plain fields. `sheafbuckle_c` exports each of them.
#![tactic(auto)]

mod arithmetic; // arithmetic.rt: add, subtract, re-round
mod ordering; // ordering.rt: compare, turn the sign
mod conversion; // conversion.rt: to double, enclosing pair, from double
mod limbs; // limbs.rt: trim
mod stored; // stored.rt: write a line, read its head, read it

pub use arithmetic::{sheafbuckle_add, sheafbuckle_reround, sheafbuckle_subtract};
pub use conversion::{sheafbuckle_enclose, sheafbuckle_from_double, sheafbuckle_to_double};
pub use limbs::sheafbuckle_trim;
pub use ordering::{sheafbuckle_compare, sheafbuckle_turn_sign};
pub use stored::{sheafbuckle_read_head, sheafbuckle_read_line, sheafbuckle_write_line};
