// The tokens of a text that is known to be a program, one behind the other.
ghost use Rattle.std.specs.Prelude.{◌≡◌};
ghost use Rattle.text.specs.First.{FirstToken};
ghost use Rattle.rule.specs.Limits.{value_from};
ghost use Rattle.compiler.specs.Inside.Seeing.{end_of, Skips, EatsWord, EatsSign, AtWord, ReadsWord, AtNumber, ReadsNumber, AtLetter, ReadsLetter, Digits};

use text::{Sign, Token, Word};
use tokeniser::token_at;

// A text, and how far it is read.
#[derive(Clone, Copy)]
pub struct Cursor<'a> {
    pub text: &'a [u8],
    pub at: usize,
}

// Where a token ends; None where none stands. (No method of `Token`: `text` has definitions and no functions.)
pub fn end_of(token: Token) -> Option<usize>
    ensures { result ≡ end_of token }
{
    match token {
        Token::Word { end, .. }
        | Token::Number { end, .. }
        | Token::Letter { end, .. }
        | Token::Sign { end, .. } => Some(end),
        Token::End { .. } | Token::Broken { .. } => None,
    }
}

// The value of digits, where it is at most 63.
fn value(digits: &[u8]) -> u8
    requires { Digits digits.now }
    ensures { result ≡ value_from 0 digits.now }
{
    let mut value = 0;
    for digit in digits {
        value = 10 * value + (*digit - b'0');
    }
    value
}

impl Cursor<'_> {
    // Past so many tokens.
    pub fn skip(&mut self, many: usize)
        ensures { Skips self.old self.new many }
    {
        for _ in 0..many {
            self.at = end_of(token_at(self.text, self.at)).unwrap_or(self.at);
        }
    }

    // What comes next. Where that is asked for one thing after the other, it is read once, and `past` and those like it are told of it: each
    // reading goes over all that stands before a token.
    pub fn next(self) -> Token
        ensures { FirstToken self.entry.text.now self.entry.at result }
    {
        token_at(self.text, self.at)
    }

    // Past this token, which comes next.
    pub fn past(&mut self, token: Token)
        ensures { FirstToken self.old.text.now self.old.at token → Skips self.old self.new 1 }
    {
        self.at = end_of(token).unwrap_or(self.at);
    }

    // Past this token, which comes next, if it is this word; whether it is. Beside it stands the same of a sign: each takes its own sort of
    // token apart, and one over both would need a trait that says no more.
    pub fn past_word(&mut self, token: Token, wanted: Word) -> bool
        ensures { FirstToken self.old.text.now self.old.at token → EatsWord self.old self.new wanted result }
    {
        let Token::Word { word, end, .. } = token else {
            return false;
        };
        if word != wanted {
            return false;
        }
        self.at = end;
        true
    }

    // Past this token, which comes next, if it is this sign; whether it is.
    pub fn past_sign(&mut self, token: Token, wanted: Sign) -> bool
        ensures { FirstToken self.old.text.now self.old.at token → EatsSign self.old self.new wanted result }
    {
        let Token::Sign { sign, end, .. } = token else {
            return false;
        };
        if sign != wanted {
            return false;
        }
        self.at = end;
        true
    }

    // Past this word, if it comes next; whether it does.
    pub fn eat_word(&mut self, wanted: Word) -> bool
        ensures { EatsWord self.old self.new wanted result }
    {
        let token = self.next();
        self.past_word(token, wanted)
    }

    // Past this sign, if it comes next; whether it does.
    pub fn eat_sign(&mut self, wanted: Sign) -> bool
        ensures { EatsSign self.old self.new wanted result }
    {
        let token = self.next();
        self.past_sign(token, wanted)
    }

    // Past a word; which it is. (This, `letter` and `number` each take their own sort of token apart, as the readers do.)
    pub fn word(&mut self) -> Word
        requires { AtWord self.old }
        ensures { ReadsWord self.old self.new result }
    {
        let Token::Word { word, end, .. } = token_at(self.text, self.at) else {
            unreachable!()
        };
        self.at = end;
        word
    }

    // Past a letter; its byte.
    pub fn letter(&mut self) -> u8
        requires { AtLetter self.old }
        ensures { ReadsLetter self.old self.new result }
    {
        let Token::Letter { byte, end, .. } = token_at(self.text, self.at) else {
            unreachable!()
        };
        self.at = end;
        byte
    }

    // Past a number; its value.
    pub fn number(&mut self) -> u8
        requires { AtNumber self.old }
        ensures { ReadsNumber self.old self.new result }
    {
        let token = self.next();
        self.past_number(token)
    }

    // Past this token, which comes next and is a number; its value.
    pub fn past_number(&mut self, token: Token) -> u8
        requires { AtNumber self.old × FirstToken self.old.text.now self.old.at token }
        ensures { ReadsNumber self.old self.new result }
    {
        let Token::Number { at, end } = token else {
            unreachable!()
        };
        self.at = end;
        value(&self.text[at..end])
    }
}
