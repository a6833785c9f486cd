// The control store: its control words, the one at a line, and the first bad line.
#![tactic(auto)]

ghost use Rattle.std.specs.Prelude.{◌≡◌};
ghost use Rattle.store.specs.Store.{wrong_store, words, control_word, with_word, with_words, bad_line};

use word::Line;

// Its control words, line after line.
pub fn words(store: &[u32]) -> &[u32]
    ensures { result.now ≡ words store.now }
{
    &store[..]
}

// The control word at a line; past the store's end it is 0.
pub fn word_at(store: &[u32], line: Line) -> u32
    ensures { result ≡ control_word store.now line.0 }
{
    store.get(usize::from(line)).copied().unwrap_or(0)
}

// Puts a control word at a line; past the store's end nothing is put.
// By index: after a slice's `get_mut` a proof knows the slice's length and none of its words.
pub fn put_word(store: &mut [u32], line: Line, word: u32)
    ensures { store.new ≡ with_word store.old line.0 word }
{
    let k = usize::from(line);
    if k < store.len() {
        store[k] = word;
    }
}

// Puts a control word at every line; a store of another size is left as found.
pub fn put_words(store: &mut [u32], words: &[u32; 64])
    ensures { store.new ≡ with_words store.old words.now }
{
    if !is_wrong(store) {
        store.copy_from_slice(words);
    }
}

// The first bad line.
pub fn first_bad(store: &[u32]) -> Option<usize>
    ensures { result ≡ bad_line store.now }
{
    store.iter().position(|&word| microword::is_bad(word))
}

// 1: a control store not of 64 words.
pub fn is_wrong(store: &[u32]) -> bool
    ensures { result ≡ wrong_store store.now }
{
    store.len() != 64
}
