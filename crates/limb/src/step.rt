// What a walk over two runs of limbs does with one limb of each: it adds them, or takes one off the other.
ghost use Rattle.std.specs.Prelude.{ℕ, ◌*◌, ◌^◌};
ghost use Rattle.std.proofs.Common.{ap, arith};
ghost use Rattle.limb.specs.Carry.{bit};
ghost use Rattle.limb.specs.Column.{Column, Begins, Joins, Summed, Taken, TakenFrom};

use crate::{Limb, add_carry, sub_borrow};

pub trait Step {
    // What it makes of a digit of each and the carry in, in any base.
    ghost column: { Column };

    // One limb of x and y with a carry in.
    fn limb(x: u64, y: u64, carry: bool) -> Limb
        ensures { column (2 ^ 64) x y (bit carry) result.limb (bit result.carry) };

    ghost begins: { Begins column };

    ghost joins: { Joins column };
}

// x + y + carry
pub struct Adding;

impl Step for Adding {
    ghost column = { Summed };

    fn limb(x: u64, y: u64, carry: bool) -> Limb {
        add_carry(x, y, carry)
    }

    ghost begins = { λ k. Prim.omega arith };

    ghost joins = { λ P Q x y k s m u v t n low high. Prim.omega (arith, low, ap (λ (i : ℕ). P * i) high) };
}

// x - y - borrow
pub struct Taking;

impl Step for Taking {
    ghost column = { Taken };

    fn limb(x: u64, y: u64, carry: bool) -> Limb {
        sub_borrow(x, y, carry)
    }

    ghost begins = { λ k. Prim.omega arith };

    ghost joins = { λ P Q x y k s m u v t n low high. Prim.omega (arith, low, ap (λ (i : ℕ). P * i) high) };
}

// y - x - borrow
pub struct TakingFrom;

impl Step for TakingFrom {
    ghost column = { TakenFrom };

    fn limb(x: u64, y: u64, carry: bool) -> Limb {
        sub_borrow(y, x, carry)
    }

    ghost begins = { λ k. Prim.omega arith };

    ghost joins = { λ P Q x y k s m u v t n low high. Prim.omega (arith, low, ap (λ (i : ℕ). P * i) high) };
}
