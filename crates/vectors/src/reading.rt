// Fields of a line. Past the line's end, and for a byte that is no digit, stands the digit 0.
ghost use Rattle.std.specs.Prelude.{◌≡◌, ◌≤◌, ◌<◌, ◌^◌, length, drop, get_or};
ghost use Rattle.checks.specs.Number.{exponent_of};
ghost use Rattle.vectors.specs.Fields.{digit_of, field_of, kind_of, counted_from, number_of};

use checks::{Kind, Number};

// The most limbs that a number of a line has.
pub const LIMB_ROOM: usize = 80;

// A lowercase digit: `char::to_digit` takes capitals too.
#[tactic(auto, unfolding(crate::specs::Fields::digit_of))]
fn digit(b: u8) -> u64
    ensures { (result ≡ digit_of b) × (result < 16) }
{
    match b {
        b'0'..=b'9' => (b - b'0') as u64,
        b'a'..=b'f' => (b - b'a' + 10) as u64,
        _ => 0,
    }
}

fn digit_at(line: &[u8], at: usize) -> u64
    ensures { (result ≡ digit_of (get_or line.now at 0)) × (result < 16) }
{
    digit(line.get(at).copied().unwrap_or(0))
}

// `Kind` and `From` are both of other crates, so no impl of one for the other can stand here.
#[tactic(auto, unfolding(crate::specs::Fields::kind_of))]
fn kind_of(k: u8) -> Kind
    ensures { result ≡ kind_of k }
{
    if k == 0 { Kind::Regular } else { Kind::Zero }
}

// 32 bits in two's complement, counted as exponents are.
#[tactic(auto, unfolding(crate::specs::Fields::counted_from))]
fn counted_from(bits: u32) -> u64
    ensures { result ≡ counted_from bits }
{
    let low = bits as u64;
    if low < 2147483648 {
        return low + 1099511627776;
    }
    low + 1095216660480
}

// The fields of a line that are still to be read.
#[derive(Clone, Copy)]
pub struct Fields<'a> {
    pub rest: &'a [u8],
}

impl<'a> Fields<'a> {
    // The next field of so many digits.
    fn field(&mut self, digits: usize) -> u64
        requires { digits ≤ 16 }
        ensures value { result ≡ field_of digits self.old.rest.now }
        ensures fits { result < 16 ^ digits }
        ensures rest { self.new.rest.now ≡ drop digits self.old.rest.now }
    {
        let mut value = 0;
        for i in 0..digits {
            value = value * 16 + digit_at(self.rest, i);
        }
        self.skip(digits);
        value
    }

    // Passes over so many digits.
    pub fn skip(&mut self, digits: usize)
        ensures { self.new.rest.now ≡ drop digits self.old.rest.now }
    {
        self.rest = self.rest.get(digits..).unwrap_or(&[]);
    }

    // Two digits.
    pub fn byte(&mut self) -> u8
        ensures value { result ≡ field_of 2 self.old.rest.now }
        ensures rest { self.new.rest.now ≡ drop 2 self.old.rest.now }
    {
        self.field(2) as u8
    }

    // Four digits.
    pub fn pair(&mut self) -> u16
        ensures value { result ≡ field_of 4 self.old.rest.now }
        ensures rest { self.new.rest.now ≡ drop 4 self.old.rest.now }
    {
        self.field(4) as u16
    }

    // Eight digits.
    pub fn quad(&mut self) -> u32
        ensures value { result ≡ field_of 8 self.old.rest.now }
        ensures rest { self.new.rest.now ≡ drop 8 self.old.rest.now }
    {
        self.field(8) as u32
    }

    // Sixteen digits.
    pub fn word(&mut self) -> u64
        ensures value { result ≡ field_of 16 self.old.rest.now }
        ensures rest { self.new.rest.now ≡ drop 16 self.old.rest.now }
    {
        self.field(16)
    }

    // A number without its limbs, 28 digits: sign (2), kind (2), precision (16), exponent (8).
    pub fn number(&mut self) -> Number
        ensures value { result ≡ number_of self.old.rest.now }
        ensures rest { self.new.rest.now ≡ drop 28 self.old.rest.now }
    {
        let sign = self.byte();
        let kind = kind_of(self.byte());
        let precision = self.word();
        let exponent = checks::exponent_of(counted_from(self.quad()));
        Number {
            negative: sign == 1,
            kind,
            precision,
            exponent,
        }
    }

    // A count of limbs (4 digits) and then the limbs, lowest first, as far as there is room.
    pub fn limbs<'r>(&mut self, room: &'r mut [u64; LIMB_ROOM]) -> &'r [u64]
        ensures { length result.now ≤ 80 }
    {
        let n = usize::from(self.pair()).min(LIMB_ROOM);
        for limb in &mut room[..n] {
            *limb = self.word();
        }
        &room[..n]
    }
}

// So many limbs, each eight times the same byte, which is the number's lowest.
pub fn filled(byte: u64) -> [u64; LIMB_ROOM]
    ensures { 80 ≡ length result }
{
    [u64::from_ne_bytes([(byte % 256) as u8; 8]); LIMB_ROOM]
}
