// Which reserved word some bytes are, compared whole and byte for byte.
ghost use Rattle.text.specs.First.{IsWord};

use text::Word;

pub fn word_of(bytes: &[u8]) -> Word
    ensures { IsWord result bytes.now }
{
    match bytes {
        b"alphabet" => Word::Alphabet,
        b"decr_on_zero" => Word::DecrOnZero,
        b"true" => Word::True,
        b"false" => Word::False,
        b"twoc" => Word::Twoc,
        b"string" => Word::String,
        b"move" => Word::Move,
        b"goto" => Word::Goto,
        b"lend" => Word::Lend,
        b"rend" => Word::Rend,
        b"c" => Word::C,
        b"accept" => Word::Accept,
        b"reject" => Word::Reject,
        b"if" => Word::If,
        b"else" => Word::Else,
        b"while" => Word::While,
        b"choose" => Word::Choose,
        b"branch" => Word::Branch,
        b"also" => Word::Also,
        b"read" => Word::Read,
        _ => Word::Other,
    }
}
