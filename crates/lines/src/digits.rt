// A line of digits, and its fields.
ghost use Rattle.std.specs.Prelude.{◌≡◌, true, ◌+◌, ◌^◌, ◌≤◌, ◌<◌, length};
ghost use Rattle.lines.specs.Reading.{field, digits_hold};

// 9: digits, and LF at the end.
pub fn digits_hold(line: &[u8]) -> bool
    requires { 0 < length line.now }
    ensures { result ≡ digits_hold line.now }
{
    let last = line.len() - 1;
    if line[last] != 10 {
        return false;
    }
    text::all_digits(&line[0..last])
}

// The whole number of n digits from a place on.
pub fn field_at(line: &[u8], at: usize, n: usize) -> u64
    requires { (digits_hold line.now ≡ true) × (at + n < length line.now) × (n ≤ 16) }
    ensures { (result ≡ field at n line.now) × (result < 16 ^ n) }
{
    let end = at + n;
    text::read_digits(&line[at..end])
}
