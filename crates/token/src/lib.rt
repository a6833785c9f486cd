// Tokens: the next one of a line of micro text, if there is one, with what is behind its bytes.
#![tactic(auto)]

ghost use Rattle.std.specs.Prelude.{◌≡◌, ◌<◌, ℕ, Bool, length, get_or, take};
ghost use Rattle.std.specs.List.{prefix_len};
ghost use Rattle.token.specs.Code.Next.{grown as grown_by, packed, told, start_at, scanned, token_len};
ghost use Rattle.token.specs.Code.Numbers.{decimal_of};

// A token: its bytes behind a 1, as the digits of one number to the base 256. The fifth byte is the last that counts.
// It is no slice of bytes: that was tried, and each `match` on a token fell into many goals that did not close.
#[derive(Clone, Copy, Debug, PartialEq, Eq)]
pub struct Token(pub u64);

// The words and signs of micro text. A constant can call no function, so each is its number.
impl Token {
    pub const CP: Token = Token(0x1_6370);

    pub const AC: Token = Token(0x1_6163);

    pub const PP: Token = Token(0x1_7070);

    pub const RI: Token = Token(0x1_7269);

    pub const RT: Token = Token(0x1_7274);

    pub const MASC: Token = Token(0x1_6d61_7363);

    pub const REM: Token = Token(0x172_656d);

    pub const RDM: Token = Token(0x172_646d);

    pub const ALU: Token = Token(0x161_6c75);

    pub const RD: Token = Token(0x1_7264);

    pub const WR: Token = Token(0x1_7772);

    pub const GOTO: Token = Token(0x1_676f_746f);

    pub const IF: Token = Token(0x1_6966);

    pub const THEN: Token = Token(0x1_7468_656e);

    pub const N: Token = Token(0x16e);

    pub const Z: Token = Token(0x17a);

    pub const ASSIGN: Token = Token(0x1_3a3d);

    pub const LEFT: Token = Token(0x1_3c3c);

    pub const RIGHT: Token = Token(0x1_3e3e);

    pub const PLUS: Token = Token(0x12b);

    pub const MINUS: Token = Token(0x12d);

    pub const AND: Token = Token(0x15e);

    pub const ONE: Token = Token(0x131);

    pub const OPEN: Token = Token(0x128);

    pub const CLOSE: Token = Token(0x129);

    pub const COLON: Token = Token(0x13a);

    pub const SEMICOLON: Token = Token(0x13b);
}

impl Token {
    // With one byte more.
    fn grown(self, c: u8) -> Token
        ensures { result.0 ≡ grown_by self.0 c }
    {
        if self.0 < 0x2_0000_0000 {
            return Token(self.0 * 256 + c as u64);
        }
        self
    }

    // The token with these bytes; no bytes are none.
    fn of(bytes: &[u8]) -> Option<Token>
        ensures { result ≡ told bytes.now }
    {
        if bytes.is_empty() {
            return None;
        }
        Some(bytes.iter().fold(Token(1), |token, c| token.grown(*c)))
    }
}

// The next token of a line, if there is one, and what is behind its bytes.
#[derive(Clone, Copy, Debug, PartialEq, Eq)]
pub struct Scanned {
    pub token: Option<Token>,
    pub behind: usize,
}

// Where the next token begins: the first byte from `at` on that is no space. From there to what is behind it are the token's bytes.
// It walks by index: `text.get(at..)` with `position` was tried, and `spaces` and `scanned` did not close.
// Text and place stay two parameters: `start_at` says places in the whole text.
#[tactic(auto, using(crate::proofs::Scan::starts_here))]
pub fn start(text: &[u8], at: usize) -> usize
    ensures starts { result ≡ start_at text.now at }
    ensures same { scanned text.now result ≡ scanned text.now at }
    ensures no_space { result < length text.now → get_or text.now result 0 ≡ 32 → ⊥ }
{
    for i in at..text.len() {
        if text[i] != b' ' {
            return i;
        }
    }
    at.max(text.len())
}

// The run of bytes of one kind that begins `rest`: its token, and how many bytes it has.
// One pass, and not `position` and then a fold: nearly all tokens have one to three bytes, and two passes took half as long again.
fn run<F: Fn(u8) -> bool>(rest: &[u8], belongs: F) -> (Token, usize)
    requires { F.IsAlwaysCallable belongs }
    ensures { (kind : ℕ → Bool) → ((c : ℕ) (b : Bool) → F.post belongs c b → b ≡ kind c) → (result.1 ≡ prefix_len kind rest.now) × (result.0.0 ≡ packed (take (prefix_len kind rest.now) rest.now)) }
{
    let mut token = Token(1);
    for n in 0..rest.len() {
        let c = rest[n];
        if !belongs(c) {
            return (token, n);
        }
        token = token.grown(c);
    }
    (token, rest.len())
}

// The token that begins `rest`, and how many bytes it has: a run of letters, a run of digits, or a sign. A line's end begins none.
// Always inline, as `next_token` is.
#[inline(always)]
fn first_token(rest: &[u8]) -> (Option<Token>, usize)
    requires { 0 < length rest.now → get_or rest.now 0 0 ≡ 32 → ⊥ }
    ensures { (result.1 ≡ token_len rest.now) × (result.0 ≡ told (take (token_len rest.now) rest.now)) }
{
    let Some(c) = rest.first().copied() else {
        return (None, 0);
    };
    if c == b'\n' {
        return (None, 0);
    }
    if c.is_ascii_lowercase() {
        let (token, n) = run(rest, |c| c.is_ascii_lowercase());
        return (Some(token), n);
    }
    if c.is_ascii_digit() {
        let (token, n) = run(rest, |c| c.is_ascii_digit());
        return (Some(token), n);
    }
    if rest.starts_with(b":=") || rest.starts_with(b"<<") || rest.starts_with(b">>") {
        return (Token::of(&rest[..2]), 2);
    }
    (Token::of(&rest[..1]), 1)
}

// The next token of the line that goes on at `at`. Text and place stay two parameters: `scanned` says places in the whole text.
// Always inline: what it answers is three words, which would go by way of memory at each token.
#[inline(always)]
pub fn next_token(text: &[u8], at: usize) -> Scanned
    ensures { result ≡ scanned text.now at }
{
    let i = start(text, at);
    let Some(rest) = text.get(i..) else {
        return Scanned {
            token: None,
            behind: i,
        };
    };
    let (token, n) = first_token(rest);
    Scanned {
        token,
        behind: i + n,
    }
}

// The number that a token of one or two digits with no leading zero spells.
#[tactic(auto, using(std::proofs::lemmas::Bool::Decides::nat_tests), unfolding(crate::specs::Code::Numbers::decimal_of))]
pub fn decimal(token: Token) -> Option<u32>
    ensures { result ≡ decimal_of token.0 }
{
    let low = (token.0 % 256) as u8;
    if !low.is_ascii_digit() {
        return None;
    }
    let low = (low - b'0') as u32;
    match token.0 / 256 {
        0x1 => Some(low),
        high @ 0x131..=0x139 => Some((high - 0x130) as u32 * 10 + low),
        _ => None,
    }
}
