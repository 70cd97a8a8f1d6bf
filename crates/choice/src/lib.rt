// One of two, selected without a branch; and which of two operands comes first, as far as exponents and top limbs tell.
#![tactic(auto)]

ghost use Rattle.std.specs.Prelude.{◌≡◌, not, cond, ◌&&◌, ◌||◌, ltb, eqb};

// The first of two, or the second.
pub fn either<T: Copy>(second: bool, a: T, b: T) -> T
    ensures { result ≡ cond second b a }
{
    if second { b } else { a }
}

// Whether the second of two operands is larger, by exponents a, b and top limbs u, v.
pub fn is_second_larger(a: u64, b: u64, u: u64, v: u64) -> bool
    ensures { result ≡ (ltb a b || (eqb a b && ltb u v)) }
{
    (a < b) | ((a == b) & (u < v))
}

// Whether they do not tell, and have to.
pub fn is_level(same: bool, a: u64, b: u64, u: u64, v: u64) -> bool
    ensures { result ≡ (not same && (eqb a b && eqb u v)) }
{
    !same & ((a == b) & (u == v))
}
