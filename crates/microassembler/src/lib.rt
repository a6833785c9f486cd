// The microassembler: micro text to a control store.
#![tactic(auto)]

ghost use Rattle.std.specs.Prelude.{◌≡◌};
ghost use Rattle.word.specs.Answer.{answered};
ghost use Rattle.microassembler.specs.Assembled.{number, assembled};
ghost use Rattle.microassembler.specs.declared.Refusal.TheVariants.{Line as LineRefused};

use microtext::Fault;
use word::Line;

// Why micro text is refused.
#[derive(Clone, Copy, Debug, PartialEq, Eq)]
pub enum Refusal {
    WrongSize,
    LongText,
    Line(Fault),
}

impl From<Fault> for Refusal {
    ghost from_gives = { λ f refusal. refusal ≡ LineRefused f };

    fn from(f: Fault) -> Refusal {
        Refusal::Line(f)
    }
}

// Document 01's number of it.
impl From<Refusal> for u32 {
    ghost from_gives = { λ refusal n. n ≡ number refusal };

    fn from(refusal: Refusal) -> u32 {
        match refusal {
            Refusal::WrongSize => 1,
            Refusal::LongText => 10,
            Refusal::Line(fault) => u32::from(fault),
        }
    }
}

// The control store that micro text asks for; a refusal leaves `store` as found.
#[tactic(auto, using(crate::proofs::Filled::long_text, crate::proofs::Filled::wrong_store_lem))]
pub fn assemble(text: &[u8], store: &mut [u32]) -> Result<(), Refusal>
    ensures { assembled text.now store.old ≡ record { answer = answered number result; store = store.new } }
{
    if store::is_wrong(store) {
        return Err(Refusal::WrongSize);
    }
    if 8192 < text.len() {
        return Err(Refusal::LongText);
    }
    // A line ends where it is read to: so place and number go along here, and no iterator of lines finds each end a second time.
    let mut made = [0u32; 64];
    let mut at = 0;
    let mut k = 0u8;
    while at < text.len() {
        let read = microtext::read_line(text, at, Line(k))?;
        store::put_word(&mut made, Line(k), read.word);
        at = read.next;
        k += 1;
    }
    store::put_words(store, &made);
    Ok(())
}
