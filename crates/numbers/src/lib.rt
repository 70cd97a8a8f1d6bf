// What a number is: the limits, the operand and its good form. Definitions in specs/, their laws in proofs/.
#![tactic(auto)]

// The limits, as specs/Limits has them.
pub const LEAST_PRECISION: u64 = 2;

pub const MOST_PRECISION: u64 = 4096;

// Exponents are counted from -2^40.
pub const BIAS: u64 = 1 << 40;

pub const LEAST_EXPONENT: u64 = BIAS + 1 - (1 << 30);

pub const MOST_EXPONENT: u64 = BIAS + (1 << 30) - 1;
