// Lowercase hexadecimal digits, and whole numbers written with any number of them, highest first.
#![tactic(auto)]

ghost use Rattle.std.specs.Prelude.{◌≡◌, ◌%◌, ◌^◌, length};
ghost use Rattle.text.specs.Digits.{digit_of, all_digits, glyph_of, worth, numeral};

// A digit's value; every other byte has 16.
pub fn digit(b: u8) -> u8
    ensures { result ≡ digit_of b }
{
    match b {
        b'0'..=b'9' => b - b'0',
        b'a'..=b'f' => b - b'a' + 10,
        _ => 16,
    }
}

// The byte of a value's last digit.
pub fn glyph(value: u64) -> u8
    ensures { result ≡ glyph_of (value % 16) }
{
    match (value % 16) as u8 {
        d @ 0..=9 => b'0' + d,
        d => b'a' + (d - 10),
    }
}

// Whether every byte is a digit.
pub fn all_digits(s: &[u8]) -> bool
    ensures { result ≡ all_digits s.now }
{
    s.iter().all(|b| digit(*b) < 16)
}

// The whole number of the digits; what passes 64 bits is dropped.
pub fn read_digits(s: &[u8]) -> u64
    ensures { result ≡ worth s.now % 2 ^ 64 }
{
    let mut value: u64 = 0;
    for b in s {
        value = (value << 4).wrapping_add(digit(*b) as u64);
    }
    value
}

// A number's last digits, as many as there is room for.
pub fn write_digits(room: &mut [u8], value: u64)
    ensures { room.new ≡ numeral (length room.old) value }
{
    let mut rest = value;
    for i in (0..room.len()).rev() {
        room[i] = glyph(rest);
        rest /= 16;
    }
}
