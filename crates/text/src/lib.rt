// Text as bytes: behind the end of a line, and text laid into a lent room. Lines and decimals are defined here for whoever reads text.
#![tactic(auto)]

ghost use Rattle.std.specs.Prelude.{◌≡◌};
ghost use Rattle.text.specs.Text.{behind_line};
ghost use Rattle.text.specs.Laid.{laid};

// Behind the byte that ends a line at `end`, in a text that ends at `last`.
pub fn behind_line(end: usize, last: usize) -> usize
    ensures { result ≡ behind_line end last }
{
    if end < last {
        return end + 1;
    }
    end
}

// Lays `text` from `at` on and answers where it ends. Where it would pass the room's end nothing is laid.
// The answer is a place in every case, and no Option: `laid` says for every room where what comes next may be laid.
// Byte by byte: `copy_from_slice` calls memmove, which takes longer than a piece of a few bytes does.
#[tactic(auto, unfolding(crate::specs::Laid::laid))]
pub fn put(room: &mut [u8], at: usize, text: &[u8]) -> usize
    ensures { laid room.old at text.now ≡ record { room = room.new; next = result } }
{
    if room.len() < text.len() || room.len() - text.len() < at {
        return at;
    }
    for i in 0..text.len() {
        room[at + i] = text[i];
    }
    at + text.len()
}
