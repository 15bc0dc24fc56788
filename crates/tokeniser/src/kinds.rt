// The kind of a byte, by the range it falls in, and with what a byte goes on: a number, a word, a comment.
ghost use Rattle.std.specs.Prelude.{◌≡◌};
ghost use Rattle.bits.specs.Byte.{is_digit};
ghost use Rattle.text.specs.Token.{in_word};
ghost use Rattle.tokeniser.specs.Inside.Tokenising.{kind_of, in_comment};

#[derive(Clone, Copy, Debug, PartialEq, Eq)]
pub enum Kind {
    Digit,
    Alphabetic,
    Underscore,
    Quote,
    White,
    Slash,
    Sign,
    Other,
}

pub fn kind_of(b: u8) -> Kind
    ensures { result ≡ kind_of b }
{
    match b {
        b'0'..=b'9' => Kind::Digit,
        b'A'..=b'Z' | b'a'..=b'z' => Kind::Alphabetic,
        b'_' => Kind::Underscore,
        b'\'' => Kind::Quote,
        b'\t'..=b'\n' | b'\r' | b' ' => Kind::White,
        b'/' => Kind::Slash,
        b'!' | b'&' | b'('..=b')' | b'+'..=b'-' | b';' | b'=' | b'[' | b']' | b'{'..=b'}' =>
            Kind::Sign,
        _ => Kind::Other,
    }
}

pub fn is_digit(b: u8) -> bool
    ensures { result ≡ is_digit b }
{
    kind_of(b) == Kind::Digit
}

pub fn in_word(b: u8) -> bool
    ensures { result ≡ in_word b }
{
    matches!(
        kind_of(b),
        Kind::Digit | Kind::Alphabetic | Kind::Underscore
    )
}

// A comment ends before the line feed, which is white space, or with the text.
pub fn in_comment(b: u8) -> bool
    ensures { result ≡ in_comment b }
{
    b != b'\n'
}
