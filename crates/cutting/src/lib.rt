// Lines and groups of three lines, cut from an input byte by byte.
#![tactic(auto)]

ghost use Rattle.std.specs.Prelude.{◌≡◌, cond, ◌+◌, ◌≤◌, ◌<◌, length, take};
ghost use Rattle.cutting.specs.Lines.{line_room, ends_line};
ghost use Rattle.cutting.specs.Group.{no_group, longer, held_of, Grown, Counts};
ghost use Rattle.cutting.specs.Held.{counts_in, Roomy, Bounded, Cut, Took, SameBuffers};

// A line's buffer has a byte more than the longest line, which shows that a line is too long.
pub const LINE_ROOM: usize = lines::LONGEST_LINE + 1;

const LINE_END: u8 = 10;

// How many bytes a line's buffer has.
pub fn line_room() -> usize
    ensures { result ≡ line_room }
{
    LINE_ROOM
}

// A count of bytes held, within their buffer.
fn at_most_room(n: usize) -> usize
    ensures { Counts n result }
{
    n.min(line_room())
}

// LF ends the line under way.
fn lines_after(lines: usize, b: u8) -> usize
    requires { lines < 3 }
    ensures { result ≡ cond (ends_line b) (lines + 1) lines }
{
    if b == LINE_END { lines + 1 } else { lines }
}

// A line's buffer, and how many of its bytes are held.
#[derive(Drop)]
pub struct Line<'a> {
    pub bytes: &'a mut [u8],
    pub held: usize,
}

impl Line<'_> {
    // The bytes that are held.
    pub fn text(&self) -> &[u8]
        ensures { result.now ≡ take self.now.held self.now.bytes.now }
    {
        let end = self.held.min(self.bytes.len());
        &self.bytes[..end]
    }

    // A byte more, as far as there is room.
    fn keep(&mut self, b: u8)
        requires { (self.old.held ≤ line_room) × (length self.old.bytes.now ≡ line_room) }
        ensures kept { take self.new.held self.new.bytes.now ≡ longer (take self.old.held self.old.bytes.now) b }
        ensures grown { Grown self.old.held self.new.held self.old.bytes.now self.new.bytes.now }
        ensures room { length self.new.bytes.now ≡ line_room }
        ensures same_reference { self.new.bytes.ghost_name ≡ self.old.bytes.ghost_name }
    {
        if self.held == self.bytes.len() {
            return;
        }
        self.bytes[self.held] = b;
        self.held += 1;
    }
}

// How many lines of a group are whole, and what is held of each.
#[derive(Drop)]
pub struct Lines<'a> {
    pub whole: usize,
    pub first: Line<'a>,
    pub second: Line<'a>,
    pub third: Line<'a>,
}

impl<'a> Lines<'a> {
    // Nothing of a group, with a buffer for each line.
    pub fn new(first: &'a mut [u8], second: &'a mut [u8], third: &'a mut [u8]) -> Lines<'a>
        ensures empty { counts_in result ≡ held_of no_group }
        ensures first { result.first.bytes.now ≡ first.old }
        ensures second { result.second.bytes.now ≡ second.old }
        ensures third { result.third.bytes.now ≡ third.old }
        ensures same { (result.first.bytes.ghost_name ≡ first.entry.ghost_name) × (result.second.bytes.ghost_name ≡ second.entry.ghost_name) × (result.third.bytes.ghost_name ≡ third.entry.ghost_name) }
    {
        Lines {
            whole: 0,
            first: Line {
                bytes: first,
                held: 0,
            },
            second: Line {
                bytes: second,
                held: 0,
            },
            third: Line {
                bytes: third,
                held: 0,
            },
        }
    }

    // Nothing of a group is held any more.
    pub fn clear(&mut self)
        ensures cleared { counts_in self.new ≡ held_of no_group }
        ensures first { self.new.first.bytes.now ≡ self.old.first.bytes.now }
        ensures second { self.new.second.bytes.now ≡ self.old.second.bytes.now }
        ensures third { self.new.third.bytes.now ≡ self.old.third.bytes.now }
        ensures same { SameBuffers self.old self.new }
    {
        self.whole = 0;
        self.first.held = 0;
        self.second.held = 0;
        self.third.held = 0;
    }

    // A byte goes to the line under way; LF ends it.
    fn take_byte(&mut self, b: u8)
        requires { Bounded self.old × (self.old.whole < 3) × Roomy self.old }
        ensures took { Took self.old b self.new }
        ensures rooms { Roomy self.new }
        ensures same { SameBuffers self.old self.new }
    {
        let under_way = self.whole;
        self.whole = lines_after(under_way, b);
        match under_way {
            0 => self.first.keep(b),
            1 => self.second.keep(b),
            _ => self.third.keep(b),
        }
    }

    // Takes bytes up to the group's third LF, or all; each goes to the buffer of its line. How many were taken.
    pub fn cut(&mut self, bytes: &[u8]) -> usize
        requires { Roomy self.old }
        ensures cuts { Cut self.old bytes.now self.new result }
        ensures rooms { Roomy self.new }
        ensures same { SameBuffers self.old self.new }
    {
        self.first.held = at_most_room(self.first.held);
        self.second.held = at_most_room(self.second.held);
        self.third.held = at_most_room(self.third.held);
        for (i, b) in bytes.iter().enumerate() {
            if 3 <= self.whole {
                return i;
            }
            self.take_byte(*b);
        }
        bytes.len()
    }
}
