// The lister: a control store into its micro text.
#![tactic(auto)]

ghost use Rattle.std.specs.Prelude.{◌≡◌, ◌≤◌, length};
ghost use Rattle.microtext.specs.Listing.{lines, shown};
ghost use Rattle.text.specs.Laid.{Wrote};
ghost use Rattle.lister.specs.Answers.{number, line_of, listed, seen};

use microword::normal;
use word::Line;

// Why a store is not listed; a bad word's line is named.
#[derive(Clone, Copy, Debug, PartialEq, Eq)]
pub enum Refusal {
    WrongSize,
    SmallRoom,
    BadWord(Line),
    PastRoom,
}

impl From<Refusal> for u32 {
    ghost from_gives = { λ refusal n. n ≡ number refusal };

    fn from(refusal: Refusal) -> u32 {
        match refusal {
            Refusal::WrongSize => 1,
            Refusal::SmallRoom => 16,
            Refusal::BadWord(_) => 4,
            Refusal::PastRoom => 17,
        }
    }
}

impl Refusal {
    // The line that answer 4 names.
    pub fn line(self) -> Option<Line>
        ensures { result ≡ line_of self }
    {
        match self {
            Refusal::BadWord(line) => Some(line),
            _ => None,
        }
    }
}

// The longest line is of 44 bytes; each is made in a buffer of so many, since there is no heap.
const LINE: usize = 44;

// How long the lines of these words are together: known before the room is touched, so that a refusal leaves it as found.
// A loop of its own beside `put_lines`: one for both would take a closure, and say of any step what these say of a sum and of a room.
fn lines_length(words: &[u32]) -> usize
    requires { length words.now ≤ 64 }
    ensures { result ≡ length (lines 0 words.now) }
{
    let mut sum: usize = 0;
    for (i, &word) in words.iter().enumerate() {
        sum += microline::line_len(i as u32, word);
    }
    sum
}

// The lines of these words, each made in a buffer and copied to the room.
fn put_lines(room: &mut [u8], words: &[u32]) -> usize
    requires few { length words.now ≤ 64 }
    requires fits { length (lines 0 words.now) ≤ length room.old }
    ensures { Wrote room.old 0 (lines 0 words.now) room.new result }
{
    let mut buffer = [0u8; LINE];
    let mut at: usize = 0;
    for (i, &word) in words.iter().enumerate() {
        let n = microline::put_line(&mut buffer, i as u32, word);
        at = text::put(room, at, &buffer[..n]);
    }
    at
}

// The words up to the last whose normal form is not 0.
fn shown_words(words: &[u32]) -> &[u32]
    ensures { result.now ≡ shown words.now }
{
    match words.iter().rposition(|&word| normal(word) != 0) {
        Some(last) => &words[..=last],
        None => &[],
    }
}

// The listing of a store, at the start of a room, and its length.
#[tactic(auto, unfolding(crate::specs::Answers::listed), using(crate::proofs::Laws::shown_le))]
pub fn list(store: &[u32], room: &mut [u8]) -> Result<usize, Refusal>
    ensures { listed store.now room.old ≡ seen result room.new }
{
    if store::is_wrong(store) {
        return Err(Refusal::WrongSize);
    }
    if room.len() < 2816 {
        return Err(Refusal::SmallRoom);
    }
    if let Some(line) = store::first_bad(store) {
        return Err(Refusal::BadWord(Line(line as u8)));
    }
    let words = shown_words(store::words(store));
    if room.len() < lines_length(words) {
        return Err(Refusal::PastRoom);
    }
    Ok(put_lines(room, words))
}
