// The 23-bit control word: its nine fields taken and placed, bad words, and the normal form.
#![tactic(auto)]

ghost use Rattle.std.specs.Prelude.{◌≡◌, cond};
ghost use Rattle.microword.specs.Microword.{fields_of, word_of, bad_word, idle, normal_fields, normal_form};

use word::{put_below, take};

// The nine fields, highest first. They are numbers and no enums or flags: `word_of`'s clause and the definitions answer for any numbers.
#[derive(Clone, Copy, Debug, Default, PartialEq, Eq)]
pub struct Fields {
    pub a: u32,
    pub b: u32,
    pub s: u32,
    pub hs: u32,
    pub f: u32,
    pub rd: u32,
    pub wr: u32,
    pub sq: u32,
    pub end: u32,
}

#[tactic(auto, unfolding(crate::specs::Microword::fields_of))]
pub fn fields_of(word: u32) -> Fields
    ensures { result ≡ fields_of word }
{
    Fields {
        a: take(word, 20, 3),
        b: take(word, 17, 3),
        s: take(word, 14, 3),
        hs: take(word, 13, 1),
        f: take(word, 10, 3),
        rd: take(word, 9, 1),
        wr: take(word, 8, 1),
        sq: take(word, 6, 2),
        end: take(word, 0, 6),
    }
}

#[tactic(auto, unfolding(crate::specs::Microword::word_of, word::specs::Number::joined))]
pub fn word_of(fields: Fields) -> u32
    ensures { result ≡ word_of fields }
{
    let a = put_below(0, 3, fields.a);
    let b = put_below(a, 3, fields.b);
    let s = put_below(b, 3, fields.s);
    let hs = put_below(s, 1, fields.hs);
    let f = put_below(hs, 3, fields.f);
    let rd = put_below(f, 1, fields.rd);
    let wr = put_below(rd, 1, fields.wr);
    let sq = put_below(wr, 2, fields.sq);
    put_below(sq, 6, fields.end)
}

// More than 23 bits, or RD and WR both 1.
#[tactic(auto, unfolding(crate::specs::Microword::bad_word, crate::specs::Microword::fields_of))]
pub fn is_bad(word: u32) -> bool
    ensures { result ≡ bad_word word }
{
    8388608 <= word || (take(word, 9, 1) == 1 && take(word, 8, 1) == 1)
}

// A value, or 0 where its field is without use.
fn used(without_use: bool, value: u32) -> u32
    ensures { result ≡ cond without_use 0 value }
{
    if without_use { 0 } else { value }
}

// Nothing asks for the result.
#[tactic(auto, unfolding(crate::specs::Microword::idle))]
pub fn is_idle(m: Fields) -> bool
    ensures { result ≡ idle m }
{
    m.hs == 0 && matches!(m.sq, 0 | 3)
}

// The fields with 0 wherever one is without use.
#[tactic(auto, unfolding(crate::specs::Microword::normal_fields, crate::specs::Microword::binary))]
pub fn normal_fields(m: Fields) -> Fields
    ensures { result ≡ normal_fields m }
{
    let idle = is_idle(m);
    let binary = matches!(m.f, 3 | 4 | 5);
    Fields {
        a: used(idle, m.a),
        b: used(idle || !binary, m.b),
        s: used(m.hs == 0, m.s),
        f: used(idle, m.f),
        end: used(m.sq == 0, m.end),
        ..m
    }
}

#[tactic(auto, unfolding(crate::specs::Microword::normal_form))]
pub fn normal(word: u32) -> u32
    ensures { result ≡ normal_form word }
{
    word_of(normal_fields(fields_of(word)))
}
