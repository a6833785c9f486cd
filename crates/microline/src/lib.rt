// One line of a listing: its number and the parts of a control word, put together from pieces.
#![tactic(auto)]

ghost use Rattle.std.specs.Prelude.{◌≡◌, [], ◌∷◌, ◌++◌, ◌+◌, ◌*◌, ◌/◌, ◌%◌, ◌<◌, ◌≤◌, length, get_or, take, drop};
ghost use Rattle.microtext.specs.Listing.{register_name, formula, destination, operation_part, transfer_part, jump_texts, jump_part};
ghost use Rattle.text.specs.Laid.{Wrote};
ghost use Rattle.text.specs.Decimal.{short_decimal};
ghost use Rattle.microline.specs.Line.{line_length, laid_line};
ghost use Rattle.microline.specs.Code.Pieces.{spelt};

use microword::{Fields, fields_of, is_idle};

// Pieces, one behind the other.
fn put_pieces(room: &mut [u8], pieces: &[&[u8]]) -> usize
    requires { length (spelt pieces.now) ≤ length room.old }
    ensures { Wrote room.old 0 (spelt pieces.now) room.new result }
{
    let mut at: usize = 0;
    for piece in pieces {
        at = text::put(room, at, piece);
    }
    at
}

// How long pieces are together.
fn pieces_len(pieces: &[&[u8]]) -> usize
    requires { length (spelt pieces.now) ≤ 44 }
    ensures { result ≡ length (spelt pieces.now) }
{
    let mut len: usize = 0;
    for piece in pieces {
        len += piece.len();
    }
    len
}

// A register's name, as a part of one text: of eight texts the compiler makes a table of addresses, for which the archive would have to be relocated.
fn register<'a>(r: u32) -> &'a [u8]
    ensures { result.now ≡ register_name r }
{
    let names: &[u8] = b"cpacpprirtmascremrdm";
    let (start, end) = match r {
        0 => (0, 2),
        1 => (2, 4),
        2 => (4, 6),
        3 => (6, 8),
        4 => (8, 10),
        5 => (10, 14),
        6 => (14, 17),
        7 => (17, 20),
        _ => (0, 0),
    };
    &names[start..end]
}

// Where the operation stores; `alu` stores nothing.
fn destination<'a>(m: Fields) -> &'a [u8]
    ensures { result.now ≡ destination m }
{
    if m.hs == 0 {
        return b"alu";
    }
    register(m.s)
}

// What F computes of the registers a and b.
#[tactic(auto, unfolding(microtext::specs::Listing::formulas))]
fn formula<'a>(m: Fields) -> [&'a [u8]; 3]
    ensures { spelt result ≡ formula m }
{
    let a = register(m.a);
    let b = register(m.b);
    match m.f {
        0 => [a, b"", b""],
        1 => [a, b"+1", b""],
        2 => [a, b"-1", b""],
        3 => [a, b"+", b],
        4 => [a, b"-", b],
        5 => [a, b"^", b],
        6 => [b"<<", a, b""],
        7 => [b">>", a, b""],
        _ => [b"", b"", b""],
    }
}

// The operation; none where nothing asks for its result.
#[tactic(auto, unfolding(microtext::specs::Listing::operation))]
#[inline(always)]
fn operation<'a>(m: Fields) -> [&'a [u8]; 7]
    ensures { spelt result ≡ operation_part m }
{
    if is_idle(m) {
        return [b"", b"", b"", b"", b"", b"", b""];
    }
    let [x, y, z] = formula(m);
    [b" ", destination(m), b":=", x, y, z, b";"]
}

// `rd` or `wr`, where the word has one.
fn transfer<'a>(m: Fields) -> &'a [u8]
    ensures { result.now ≡ transfer_part m }
{
    if m.rd == 1 {
        return b" rd;";
    }
    if m.wr == 1 {
        return b" wr;";
    }
    b""
}

// The words of a jump by SQ, with the space before.
#[tactic(auto, unfolding(microtext::specs::Listing::jump_texts))]
fn jump_words<'a>(sq: u32) -> &'a [u8]
    ensures { result.now ≡ 32 ∷ get_or jump_texts sq [] }
{
    match sq {
        1 => b" if n then goto ",
        2 => b" if z then goto ",
        3 => b" goto ",
        _ => b" ",
    }
}

// The jump, to a target with its semicolon; none where SQ is 0.
#[tactic(auto, unfolding(microtext::specs::Listing::jump))]
fn jump<'a>(m: Fields, target: &'a [u8]) -> [&'a [u8]; 2]
    requires { target.now ≡ short_decimal m.end ++ 59 ∷ [] }
    ensures { spelt result ≡ jump_part m }
{
    if m.sq == 0 {
        return [b"", b""];
    }
    [jump_words(m.sq), target]
}

// A number below 100 as two digits, and the mark behind it.
fn digits(k: u32, mark: u8) -> [u8; 3]
    requires { k < 100 }
    ensures { result ≡ (48 + k / 10) ∷ (48 + k % 10) ∷ mark ∷ [] }
{
    [b'0' + (k / 10) as u8, b'0' + (k % 10) as u8, mark]
}

// Such digits in decimal: no leading zero.
#[tactic(auto, unfolding(text::specs::Decimal::short_decimal))]
fn short(k: u32, digits: &[u8; 3]) -> &[u8]
    requires { take 2 digits.now ≡ (48 + k / 10) ∷ (48 + k % 10) ∷ [] }
    ensures { result.now ≡ short_decimal k ++ drop 2 digits.now }
{
    if k < 10 {
        return &digits[1..];
    }
    digits
}

// The pieces of a line, of its number with the colon and its jump's target with the semicolon.
// Inline, with `operation`, at both calls: twelve slices handed back through memory took longer than the line itself.
#[inline(always)]
fn pieces<'a>(number: &'a [u8], m: Fields, target: &'a [u8]) -> [&'a [u8]; 12]
    requires { target.now ≡ short_decimal m.end ++ 59 ∷ [] }
    ensures { spelt result ≡ number.now ++ operation_part m ++ transfer_part m ++ jump_part m ++ 10 ∷ [] }
{
    let [space, to, sign, x, y, z, stop] = operation(m);
    let moved = transfer(m);
    let [words, goal] = jump(m, target);
    [
        number, space, to, sign, x, y, z, stop, moved, words, goal, b"\n",
    ]
}

// How long a control word's line is; for a number that no line has it is 0.
// Its pieces borrow two arrays made here, so that no function can hand them out, and `put_line` makes them again.
#[tactic(auto, unfolding(crate::specs::Line::line_length))]
pub fn line_len(number: u32, word: u32) -> usize
    ensures { result ≡ line_length number word }
{
    if 63 < number {
        return 0;
    }
    let m = fields_of(word);
    let own = digits(number, b':');
    let end = digits(m.end, b';');
    pieces_len(&pieces(short(number, &own), m, short(m.end, &end)))
}

// A control word as a line, from the start of the room. A smaller room than a line may need, or a number that no line has, is left as found;
// the answer is then 0 and no None, as `laid_line` says for every room, number and word.
// Never inline: where the compiler knows the room it makes calls of memcpy of loops over a few bytes.
#[tactic(auto, unfolding(crate::specs::Line::laid_line))]
#[inline(never)]
pub fn put_line(room: &mut [u8], number: u32, word: u32) -> usize
    ensures { laid_line room.old number word ≡ record { room = room.new; next = result } }
{
    if room.len() < 44 || 63 < number {
        return 0;
    }
    let m = fields_of(word);
    let own = digits(number, b':');
    let end = digits(m.end, b';');
    put_pieces(room, &pieces(short(number, &own), m, short(m.end, &end)))
}
