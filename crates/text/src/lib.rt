// What the tokens of a text are, in definitions and their laws, and the types that name them in code.
#![tactic(auto)]

// The reserved words, and Other for a word that is not reserved, which is a token too.
#[derive(Clone, Copy, Debug, PartialEq, Eq)]
pub enum Word {
    Alphabet,
    DecrOnZero,
    True,
    False,
    Twoc,
    String,
    Move,
    Goto,
    Lend,
    Rend,
    C,
    Accept,
    Reject,
    If,
    Else,
    While,
    Choose,
    Branch,
    Also,
    Read,
    Other,
}

#[derive(Clone, Copy, Debug, PartialEq, Eq)]
pub enum Sign {
    Becomes,
    Equals,
    Differs,
    Not,
    And,
    Or,
    Increment,
    Decrement,
    Add,
    Subtract,
    Minus,
    OpenParen,
    CloseParen,
    OpenBrace,
    CloseBrace,
    OpenBracket,
    CloseBracket,
    Comma,
    Semicolon,
}

// What comes first in a text from a byte on. A token's bytes are text[at..end]. `Broken` is a byte at which no token starts.
#[derive(Clone, Copy, Debug, PartialEq, Eq)]
pub enum Token {
    Word { at: usize, end: usize, word: Word },
    Number { at: usize, end: usize },
    Letter { at: usize, end: usize, byte: u8 },
    Sign { at: usize, end: usize, sign: Sign },
    End { at: usize },
    Broken { at: usize },
}
