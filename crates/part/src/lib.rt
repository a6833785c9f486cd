// A part of a line of micro text, token by token: how far it has been read, and the part that it comes to.
#![tactic(auto)]

ghost use Rattle.std.specs.Prelude.{◌≡◌};
ghost use Rattle.part.specs.Code.Stage.{register_of, destination_of, completed as completed_by, from_start, from_value, from_shift, from_first, from_sign, from_goto, advance as advance_to, finished as finished_at};

use token::Token;

// A part of a line. `to` is the register that keeps the result, if one does; the other numbers are document 01's of the word's fields.
// f, rd, wr, sq and end stay numbers and no enums: `add` and `word_of` are said of any numbers.
#[derive(Clone, Copy, Debug, PartialEq, Eq)]
pub enum Part {
    Operation {
        to: Option<u32>,
        f: u32,
        a: u32,
        b: u32,
    },
    Transfer {
        rd: u32,
        wr: u32,
    },
    Jump {
        sq: u32,
        end: u32,
    },
}

// What a formula is read for: the register that keeps its result, if one does, and whether an opening bracket wants closing.
#[derive(Clone, Copy, Debug, PartialEq, Eq)]
pub struct Target {
    pub to: Option<u32>,
    pub bracket: bool,
}

// How far a part has been read.
#[derive(Clone, Copy, Debug, Default, PartialEq, Eq)]
pub enum Stage {
    #[default]
    Start,
    Named { to: Option<u32> },
    Assigned { to: Option<u32> },
    Opened { to: Option<u32> },
    Shift { target: Target, f: u32 },
    First { target: Target, a: u32 },
    Sign { target: Target, f: u32, a: u32 },
    Closing { part: Part },
    If,
    Tested { sq: u32 },
    Then { sq: u32 },
    Goto { sq: u32 },
    Whole { part: Part },
}

// A register's number.
#[tactic(auto, unfolding(crate::specs::Code::Stage::register_of))]
fn register_named(t: Token) -> Option<u32>
    ensures { result ≡ register_of t.0 }
{
    match t {
        Token::CP => Some(0),
        Token::AC => Some(1),
        Token::PP => Some(2),
        Token::RI => Some(3),
        Token::RT => Some(4),
        Token::MASC => Some(5),
        Token::REM => Some(6),
        Token::RDM => Some(7),
        _ => None,
    }
}

// Where an operation stores: `alu` is nowhere.
#[tactic(auto, unfolding(crate::specs::Code::Stage::destination_of))]
fn destination(t: Token) -> Option<Option<u32>>
    ensures { result ≡ destination_of t.0 }
{
    if t == Token::ALU {
        return Some(None);
    }
    register_named(t).map(Some)
}

#[tactic(auto, unfolding(crate::specs::Code::Stage::from_start))]
fn from_start(t: Token) -> Option<Stage>
    ensures { result ≡ from_start t.0 }
{
    match t {
        Token::RD => Some(Stage::Whole {
            part: Part::Transfer { rd: 1, wr: 0 },
        }),
        Token::WR => Some(Stage::Whole {
            part: Part::Transfer { rd: 0, wr: 1 },
        }),
        Token::GOTO => Some(Stage::Goto { sq: 3 }),
        Token::IF => Some(Stage::If),
        _ => Some(Stage::Named {
            to: destination(t)?,
        }),
    }
}

impl Target {
    // A formula that is whole but for a bracket.
    #[tactic(auto, unfolding(crate::specs::Code::Stage::completed))]
    fn completed(self, part: Part) -> Stage
        ensures { result ≡ completed_by self part }
    {
        if self.bracket {
            Stage::Closing { part }
        } else {
            Stage::Whole { part }
        }
    }

    // One of <<r, >>r, r and what begins with r.
    #[tactic(auto, unfolding(crate::specs::Code::Stage::from_value))]
    fn from_value(self, t: Token) -> Option<Stage>
        ensures { result ≡ from_value self t.0 }
    {
        match t {
            Token::LEFT => Some(Stage::Shift { target: self, f: 6 }),
            Token::RIGHT => Some(Stage::Shift { target: self, f: 7 }),
            _ => Some(Stage::First {
                target: self,
                a: register_named(t)?,
            }),
        }
    }

    #[tactic(auto, unfolding(crate::specs::Code::Stage::from_shift))]
    fn from_shift(self, f: u32, t: Token) -> Option<Stage>
        ensures { result ≡ from_shift self f t.0 }
    {
        let a = register_named(t)?;
        Some(self.completed(Part::Operation {
            to: self.to,
            f,
            a,
            b: 0,
        }))
    }

    // Behind the first register: a sign, or the bracket that closes.
    #[tactic(auto, unfolding(crate::specs::Code::Stage::from_first))]
    fn from_first(self, a: u32, t: Token) -> Option<Stage>
        ensures { result ≡ from_first self a t.0 }
    {
        match t {
            Token::PLUS => Some(Stage::Sign {
                target: self,
                f: 3,
                a,
            }),
            Token::MINUS => Some(Stage::Sign {
                target: self,
                f: 4,
                a,
            }),
            Token::AND => Some(Stage::Sign {
                target: self,
                f: 5,
                a,
            }),
            Token::CLOSE if self.bracket => {
                Some(Stage::Whole {
                    part: Part::Operation {
                        to: self.to,
                        f: 0,
                        a,
                        b: 0,
                    },
                })
            }
            _ => None,
        }
    }

    // Behind a sign: a register, or 1.
    #[tactic(auto, unfolding(crate::specs::Code::Stage::from_sign))]
    fn from_sign(self, f: u32, a: u32, t: Token) -> Option<Stage>
        ensures { result ≡ from_sign self f a t.0 }
    {
        let to = self.to;
        let part = match (t, f) {
            (Token::ONE, 3) => Part::Operation { to, f: 1, a, b: 0 },
            (Token::ONE, 4) => Part::Operation { to, f: 2, a, b: 0 },
            _ => Part::Operation {
                to,
                f,
                a,
                b: register_named(t)?,
            },
        };
        Some(self.completed(part))
    }
}

#[tactic(auto, unfolding(crate::specs::Code::Stage::from_goto))]
fn from_goto(sq: u32, t: Token) -> Option<Stage>
    ensures { result ≡ from_goto sq t.0 }
{
    let end = token::decimal(t)?;
    Some(Stage::Whole {
        part: Part::Jump { sq, end },
    })
}

// How a token moves a part along.
#[tactic(auto, unfolding(crate::specs::Code::Stage::advance))]
pub fn advance(stage: Stage, t: Token) -> Option<Stage>
    ensures { result ≡ advance_to stage t.0 }
{
    match stage {
        Stage::Start => from_start(t),
        Stage::Named { to } => (t == Token::ASSIGN).then_some(Stage::Assigned { to }),
        Stage::Assigned { to } if t == Token::OPEN => Some(Stage::Opened { to }),
        Stage::Assigned { to } => Target { to, bracket: false }.from_value(t),
        Stage::Opened { to } => Target { to, bracket: true }.from_value(t),
        Stage::Shift { target, f } => target.from_shift(f, t),
        Stage::First { target, a } => target.from_first(a, t),
        Stage::Sign { target, f, a } => target.from_sign(f, a, t),
        Stage::Closing { part } => (t == Token::CLOSE).then_some(Stage::Whole { part }),
        Stage::If if t == Token::N => Some(Stage::Tested { sq: 1 }),
        Stage::If => (t == Token::Z).then_some(Stage::Tested { sq: 2 }),
        Stage::Tested { sq } => (t == Token::THEN).then_some(Stage::Then { sq }),
        Stage::Then { sq } => (t == Token::GOTO).then_some(Stage::Goto { sq }),
        Stage::Goto { sq } => from_goto(sq, t),
        Stage::Whole { part: _ } => None,
    }
}

// The part that ends here. A register alone is a formula, unless a bracket is open.
#[tactic(auto, unfolding(crate::specs::Code::Stage::finished))]
pub fn finished(stage: Stage) -> Option<Part>
    ensures { result ≡ finished_at stage }
{
    match stage {
        Stage::First { target, a } if !target.bracket => Some(Part::Operation {
            to: target.to,
            f: 0,
            a,
            b: 0,
        }),
        Stage::Whole { part } => Some(part),
        _ => None,
    }
}
