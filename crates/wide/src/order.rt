// Two regular operands in order.
ghost use Rattle.wide.specs.Filling.{Holding};
ghost use Rattle.wide.specs.Sides.{larger_of, other_of};

use settle::Pair;

// Two regular operands, the larger first: its sign, whether the caller named it second, how the two lie, and the limbs of each.
#[derive(Clone, Copy)]
pub struct Operands<'a> {
    pub negative: bool,
    pub swapped: bool,
    pub pair: Pair,
    pub first: &'a [u64],
    pub second: &'a [u64],
    pub ghost held: { Holding (larger_of negative pair first.now) (other_of negative pair second.now) pair first.now second.now },
}
