// Micro text: what one line of it means. A line is scanned once, token by token, and each token moves a part along.
#![tactic(auto)]

ghost use Rattle.std.specs.Prelude.{◌≡◌};
ghost use Rattle.text.specs.Text.{next_line};
ghost use Rattle.token.specs.Code.Numbers.{codes_at};
ghost use Rattle.microtext.specs.Line.{number, add, clash, settled};
ghost use Rattle.microtext.specs.Onward.{onward};
ghost use Rattle.microtext.specs.Reading.{reading as reading_of, reading_at};
ghost use Rattle.microtext.specs.Code.Progress.{part_ended, taken, all_taken, concluded, no_parts};

use microword::Fields;
use part::{Part, Stage};
use token::Token;
use word::Line;

// What the parts of a line have given: a target above 63, a kind twice, an operation, and the fields.
// They stay flags beside the fields, and no Option or Result: `add`, `clash` and `settled` are said of them.
#[derive(Clone, Copy, Debug, Default, PartialEq, Eq)]
pub struct Given {
    pub far: bool,
    pub twice: bool,
    pub operation: bool,
    pub fields: Fields,
}

// The parts of a line so far, and how far the next one has been read.
#[derive(Clone, Copy, Debug, Default, PartialEq, Eq)]
pub struct Parts {
    pub given: Given,
    pub stage: Stage,
}

// Why a line is refused.
#[derive(Clone, Copy, Debug, PartialEq, Eq)]
pub enum Fault {
    ExtraLine,
    WrongNumber,
    Ungrammatical,
    FarTarget,
    WrongParts,
}

// Document 01's number of it.
impl From<Fault> for u32 {
    ghost from_gives = { λ fault n. n ≡ number fault };

    fn from(fault: Fault) -> u32 {
        match fault {
            Fault::ExtraLine => 11,
            Fault::WrongNumber => 12,
            Fault::Ungrammatical => 13,
            Fault::FarTarget => 14,
            Fault::WrongParts => 15,
        }
    }
}

// A line's word, and where the next line begins.
#[derive(Clone, Copy, Debug, PartialEq, Eq)]
pub struct Read {
    pub word: u32,
    pub next: usize,
}

impl Given {
    // With one part more.
    #[tactic(auto, unfolding(crate::specs::Line::add))]
    fn add(self, part: Part) -> Given
        ensures { result ≡ add self part }
    {
        let m = self.fields;
        match part {
            Part::Operation { to, f, a, b } => Given {
                twice: self.twice || self.operation,
                operation: true,
                fields: Fields {
                    a,
                    b,
                    s: to.unwrap_or(0),
                    hs: to.is_some() as u32,
                    f,
                    ..m
                },
                ..self
            },
            Part::Transfer { rd, wr } => Given {
                twice: self.twice || m.rd == 1 || m.wr == 1,
                fields: Fields { rd, wr, ..m },
                ..self
            },
            Part::Jump { sq, end } => Given {
                far: self.far || 64 <= end,
                twice: self.twice || m.sq != 0,
                fields: Fields { sq, end, ..m },
                ..self
            },
        }
    }

    // 15: a kind of part given twice, rd with wr, a test with no operation, alu with no test.
    #[tactic(auto, unfolding(crate::specs::Line::clash))]
    fn clash(self) -> bool
        ensures { result ≡ clash self }
    {
        let m = self.fields;
        let test = m.sq == 1 || m.sq == 2;
        self.twice || (test && !self.operation) || (self.operation && m.hs == 0 && !test)
    }

    #[tactic(auto, unfolding(crate::specs::Line::settled))]
    fn settled(self) -> Result<u32, Fault>
        ensures { result ≡ settled self }
    {
        if self.far {
            return Err(Fault::FarTarget);
        }
        if self.clash() {
            return Err(Fault::WrongParts);
        }
        Ok(microword::word_of(self.fields))
    }
}

impl Parts {
    // A part ends.
    #[tactic(auto, unfolding(crate::specs::Code::Progress::part_ended, crate::specs::Onward::onward))]
    fn part_ended(self) -> Result<Given, Fault>
        ensures { result ≡ part_ended self }
    {
        let part = part::finished(self.stage).ok_or(Fault::Ungrammatical)?;
        Ok(self.given.add(part))
    }

    // One token more of the parts of a line.
    #[tactic(auto, unfolding(crate::specs::Code::Progress::taken, crate::specs::Onward::onward))]
    fn taken(self, t: Token) -> Result<Parts, Fault>
        ensures { result ≡ taken self t.0 }
    {
        if t == Token::SEMICOLON {
            let given = self.part_ended()?;
            return Ok(Parts {
                given,
                stage: Stage::Start,
            });
        }
        let stage = part::advance(self.stage, t).ok_or(Fault::Ungrammatical)?;
        Ok(Parts { stage, ..self })
    }

    // The parts at the end of their line.
    #[tactic(auto, unfolding(crate::specs::Code::Progress::concluded, crate::specs::Onward::onward))]
    fn concluded(self) -> Result<u32, Fault>
        ensures { result ≡ concluded self }
    {
        if let Stage::Start = self.stage {
            return self.given.settled();
        }
        self.part_ended()?.settled()
    }
}

// The parts of the line that goes on at `at`.
fn read_parts(text: &[u8], at: usize) -> Result<Read, Fault>
    ensures { result ≡ reading_of (onward (all_taken no_parts (codes_at text.now at)) concluded) (next_line text.now at) }
{
    let mut parts = Parts::default();
    let mut next = token::next_token(text, at);
    while let Some(token) = next.token {
        parts = parts.taken(token)?;
        next = token::next_token(text, next.behind);
    }
    let word = parts.concluded()?;
    Ok(Read {
        word,
        next: text::behind_line(next.behind, text.len()),
    })
}

// The line of `text` that begins at `at`, as the line numbered `line`.
// Text and place stay two parameters: `reading_at` says places in the whole text.
#[tactic(auto, using(crate::proofs::Whole::extra_line))]
pub fn read_line(text: &[u8], at: usize, line: Line) -> Result<Read, Fault>
    ensures { result ≡ reading_at text.now at line.0 }
{
    let k = line.0;
    if 64 <= k {
        return Err(Fault::ExtraLine);
    }
    let first = token::next_token(text, at);
    if first.token.and_then(token::decimal) != Some(k as u32) {
        return Err(Fault::WrongNumber);
    }
    let colon = token::next_token(text, first.behind);
    if colon.token != Some(Token::COLON) {
        return Err(Fault::Ungrammatical);
    }
    read_parts(text, colon.behind)
}
