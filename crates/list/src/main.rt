// The list program: the 256 bytes of a control store on standard input, its listing on standard output, or the answer line.
#![tactic(auto)]

ghost use Rattle.std.specs.Prelude.{◌≡◌, ◌≤◌, IfOk, length as lib_length};
ghost use Rattle.list.specs.Listing.{words_of, with_words, told, printed};
ghost use Rattle.lister.specs.Answers.{seen};

use console::Program;
use lister::Refusal;
use std::process::ExitCode;
use word::Line;

// The control words of an input, into a store.
#[tactic(auto, using(crate::proofs::Laws::words_put), unfolding(crate::specs::Listing::with_words))]
fn fill(store: &mut [u32], input: &[u8])
    requires { lib_length input.now ≡ 256 }
    ensures { store.new ≡ with_words store.old 0 (words_of input.now) }
{
    let (words, _) = input.as_chunks::<4>();
    for (line, &bytes) in words.iter().enumerate() {
        store::put_word(store, Line(line as u8), u32::from_be_bytes(bytes));
    }
}

// The text for the lister's answer, which left its listing in the room.
#[tactic(auto, using(console::proofs::Laws::front, crate::proofs::Laws::told_done, crate::proofs::Laws::told_refusal))]
fn tell<'a>(listed: Result<usize, Refusal>, room: &'a mut [u8; 2816]) -> &'a [u8]
    requires { IfOk listed (λ length. length ≤ 2816) }
    ensures { result.now ≡ told (seen listed room.old) }
{
    match listed {
        Ok(length) => &room[..length],
        Err(refusal) => {
            let line = refusal.line().map(|line| usize::from(line.0));
            let length = console::refusal(refusal.into(), line, room);
            &room[..length]
        }
    }
}

// The text for an input, in a room that the lister accepts.
#[tactic(auto, using(crate::proofs::Laws::listed_within), unfolding(crate::specs::Listing::printed, crate::specs::Listing::told))]
fn text<'a>(input: &[u8], room: &'a mut [u8; 2816]) -> &'a [u8]
    ensures { result.now ≡ printed input.now room.old }
{
    if input.len() != 256 {
        return tell(Err(Refusal::WrongSize), room);
    }
    let mut store = [0u32; 64];
    fill(&mut store, input);
    tell(lister::list(&store, room), room)
}

// A read that fails prints nothing.
fn main(rt: HostRuntime) -> ExitCode {
    let mut input = [0u8; 257];
    let program = Program {
        rt: &rt,
        name: b"list",
    };
    let Ok(n) = program.read_input(&mut input) else {
        return ExitCode::FAILURE;
    };
    let mut room = [0u8; 2816];
    program.print(text(&input[..n], &mut room))
}
