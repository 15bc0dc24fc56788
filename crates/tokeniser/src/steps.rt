// What stands at a byte of a text: white space or a comment, a token, or nothing that may stand there. That the byte is in the text stands in
// each contract: a struct of both for it would be made anew at every byte.
ghost use Rattle.std.specs.Prelude.{◌≡◌, ◌<◌, T, length, get_or};
ghost use Rattle.bits.specs.Byte.{is_digit};
ghost use Rattle.text.specs.Token.{begins_word, quote};
ghost use Rattle.text.specs.Tokens.{slash};
ghost use Rattle.text.specs.First.{FirstToken};
ghost use Rattle.tokeniser.specs.Inside.Tokenising.{kind_of, StepRight};
ghost use Rattle.tokeniser.specs.declared.kinds.Kind.TheVariants as Kind;

use super::ends::end_of;
use super::kinds::{Kind, in_comment, in_word, is_digit, kind_of};
use super::signs::sign_of;
use super::words::word_of;
use std::ops::ControlFlow;
use text::Token;

// On behind white space or a comment, or a token at which that ends.
pub fn step_at(text: &[u8], at: usize) -> ControlFlow<Token, usize>
    requires { at < length text.now }
    ensures { StepRight text.now at result }
{
    match kind_of(text[at]) {
        Kind::Digit => ControlFlow::Break(number_at(text, at)),
        Kind::Alphabetic | Kind::Underscore => ControlFlow::Break(word_at(text, at)),
        Kind::Quote => ControlFlow::Break(letter_at(text, at)),
        Kind::White => ControlFlow::Continue(at + 1),
        Kind::Slash => slash_at(text, at),
        Kind::Sign => ControlFlow::Break(sign_at(text, at)),
        Kind::Other => ControlFlow::Break(Token::Broken { at }),
    }
}

fn number_at(text: &[u8], at: usize) -> Token
    requires { (at < length text.now) × T (is_digit (get_or text.now at 0)) }
    ensures { FirstToken text.now at result }
{
    Token::Number {
        at,
        end: end_of(text, at + 1, is_digit),
    }
}

fn word_at(text: &[u8], at: usize) -> Token
    requires { (at < length text.now) × T (begins_word (get_or text.now at 0)) }
    ensures { FirstToken text.now at result }
{
    let end = end_of(text, at + 1, in_word);
    Token::Word {
        at,
        end,
        word: word_of(&text[at..end]),
    }
}

fn letter_at(text: &[u8], at: usize) -> Token
    requires { (at < length text.now) × (get_or text.now at 0 ≡ quote) }
    ensures { FirstToken text.now at result }
{
    if text.len() - at < 3 {
        return Token::Broken { at };
    }
    let byte = text[at + 1];
    if !bits::is_letter(byte) {
        return Token::Broken { at };
    }
    if text[at + 2] != b'\'' {
        return Token::Broken { at };
    }
    Token::Letter {
        at,
        end: at + 3,
        byte,
    }
}

// A slash begins a comment, or nothing.
fn slash_at(text: &[u8], at: usize) -> ControlFlow<Token, usize>
    requires { (at < length text.now) × (get_or text.now at 0 ≡ slash) }
    ensures { StepRight text.now at result }
{
    if bits::byte_at(text, at + 1) != b'/' {
        return ControlFlow::Break(Token::Broken { at });
    }
    ControlFlow::Continue(end_of(text, at + 2, in_comment))
}

// The longer sign comes first. Past the text's end stands a 0, which no sign has and no comment begins with.
fn sign_at(text: &[u8], at: usize) -> Token
    requires { (at < length text.now) × (kind_of (get_or text.now at 0) ≡ Kind.Sign) }
    ensures { FirstToken text.now at result }
{
    let first = text[at];
    let second = bits::byte_at(text, at + 1);
    match sign_of(&[first, second]) {
        Some(sign) => Token::Sign {
            at,
            end: at + 2,
            sign,
        },
        None => match sign_of(&[first]) {
            Some(sign) => Token::Sign {
                at,
                end: at + 1,
                sign,
            },
            None => Token::Broken { at },
        },
    }
}
