// Numbers of the machine: a control line and a memory address, kept apart; fields; what few bits keep; sums; two bytes.
#![tactic(auto)]

ghost use Rattle.std.specs.Prelude.{◌≡◌};
ghost use Rattle.word.specs.Number.{field, placed, kept, sum, difference, bytes_of, word_of};

// A line of the control store. Line and Address share their functions' names and no code: document 01 keeps the two apart all through.
#[derive(Clone, Copy, Debug, PartialEq, Eq, PartialOrd, Ord)]
pub struct Line(pub u8);

// Where a word lies in main memory.
#[derive(Clone, Copy, Debug, PartialEq, Eq, PartialOrd, Ord)]
pub struct Address(pub u16);

// The low `width` bits of a number.
pub fn low_bits(number: u32, width: u32) -> u32
    ensures { result ≡ kept width number }
{
    if 32 <= width {
        return number;
    }
    number & ((1 << width) - 1)
}

// The field of `width` bits whose lowest is bit `low`.
pub fn take(number: u32, low: u32, width: u32) -> u32
    ensures { result ≡ field low width number }
{
    if 32 <= low {
        return 0;
    }
    low_bits(number >> low, width)
}

// `high` moved up by `width` bits, with the low bits of `value` in the room that this makes.
pub fn put_below(high: u32, width: u32, value: u32) -> u32
    ensures { result ≡ placed high width value }
{
    if 32 <= width {
        return value;
    }
    (high << width) | low_bits(value, width)
}

pub fn add(a: u16, b: u16) -> u16
    ensures { result ≡ sum 16 a b }
{
    a.wrapping_add(b)
}

pub fn subtract(a: u16, b: u16) -> u16
    ensures { result ≡ difference 16 a b }
{
    a.wrapping_sub(b)
}

// A word as two bytes, high byte first.
pub fn to_bytes(word: u16) -> [u8; 2]
    ensures { result ≡ bytes_of word }
{
    word.to_be_bytes()
}

// The word that two bytes are, high byte first.
pub fn from_bytes(bytes: [u8; 2]) -> u16
    ensures { result ≡ word_of bytes }
{
    u16::from_be_bytes(bytes)
}

impl Line {
    // The line that the low 6 bits of a number name.
    pub fn of(number: u32) -> Self
        ensures { result ≡ record { 0 = kept 6 number } }
    {
        Line(low_bits(number, 6) as u8)
    }

    // After 63 comes 0.
    pub fn next(self) -> Self
        ensures { result ≡ record { 0 = sum 6 self.0 1 } }
    {
        Line::of(u32::from(self.0) + 1)
    }
}

// A line as an index into the control store.
impl From<Line> for usize {
    ghost from_gives = { λ line n. n ≡ line.0 };

    fn from(line: Line) -> usize {
        line.0 as usize
    }
}

impl Address {
    // The address that the low 12 bits of a word name.
    pub fn of(word: u16) -> Self
        ensures { result ≡ record { 0 = kept 12 word } }
    {
        Address(low_bits(u32::from(word), 12) as u16)
    }

    pub fn plus(self, other: Address) -> Self
        ensures { result ≡ record { 0 = sum 12 self.0 other.0 } }
    {
        Address::of(add(self.0, other.0))
    }

    pub fn minus(self, other: Address) -> Self
        ensures { result ≡ record { 0 = difference 12 self.0 other.0 } }
    {
        Address::of(subtract(self.0, other.0))
    }
}
