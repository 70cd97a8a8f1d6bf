// Operands and targets that have passed their tests, each with its limbs.
ghost use Rattle.std.specs.Prelude.{◌≡◌, false, length};
ghost use Rattle.numbers.specs.Operand.{WellFormed};
ghost use Rattle.checks.specs.Number.{is_zero_kind, operand_of};
ghost use Rattle.checks.specs.Room.{Room};

use crate::Number;

// A number of good form.
#[derive(Clone, Copy)]
pub struct Formed<'a> {
    pub number: Number,
    pub limbs: &'a [u64],
    pub ghost formed: { WellFormed (operand_of number limbs.now) },
}

// A number of good form that is no zero.
#[derive(Clone, Copy)]
pub struct Regular<'a> {
    pub number: Number,
    pub limbs: &'a [u64],
    pub ghost formed: { WellFormed (operand_of number limbs.now) },
    pub ghost regular: { is_zero_kind number.kind ≡ false },
}

// Where a number of so many digits is put: the precision is in range, and its limbs are those that it takes.
#[derive(Drop)]
pub struct Target<'a> {
    pub precision: u64,
    pub limbs: &'a mut [u64],
    pub ghost sized: { Room precision (length limbs.now) },
}
