//! The signs of the grammar.
ghost use Rattle.std.specs.Prelude.{◌≡◌, get_or};
ghost use Rattle.star_lexer.specs.declared.sign.Sign.TheVariants.{Open as open_sign};
ghost use Rattle.star_lexer.specs.Sign.{sign_text};
ghost use Rattle.star_lexer.specs.Symbol.{numbered_signs};

/// A sign. `<>` and `!=` are one sign in two spellings.
#[derive(Clone, Copy, Debug, PartialEq, Eq)]
pub enum Sign {
    Open,
    Close,
    Comma,
    Dot,
    Semicolon,
    Star,
    Equal,
    NotEqual,
    Less,
    LessOrEqual,
    Greater,
    GreaterOrEqual,
}

impl Sign {
    /// The sign as it is written. Of the two spellings of `<>` it is this one.
    pub fn text(self) -> &'static [u8]
        ensures { result.now ≡ sign_text self }
    {
        match self {
            Sign::Open => b"(",
            Sign::Close => b")",
            Sign::Comma => b",",
            Sign::Dot => b".",
            Sign::Semicolon => b";",
            Sign::Star => b"*",
            Sign::Equal => b"=",
            Sign::NotEqual => b"<>",
            Sign::Less => b"<",
            Sign::LessOrEqual => b"<=",
            Sign::Greater => b">",
            Sign::GreaterOrEqual => b">=",
        }
    }
}

/// The sign that has this number as a token. A number past the last is that of no token.
pub(crate) fn sign_of(number: u8) -> Sign
    ensures { result ≡ get_or numbered_signs number open_sign }
{
    match number {
        1 => Sign::Close,
        2 => Sign::Comma,
        3 => Sign::Dot,
        4 => Sign::Semicolon,
        5 => Sign::Star,
        6 => Sign::Equal,
        7 | 8 => Sign::NotEqual,
        9 => Sign::Less,
        10 => Sign::LessOrEqual,
        11 => Sign::Greater,
        12 => Sign::GreaterOrEqual,
        _ => Sign::Open,
    }
}
