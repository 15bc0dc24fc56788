// The atoms of a condition: a test of the letter read, or of the counter. Which letters the alphabet has is not asked here.
#![tactic(auto)]

ghost use Rattle.std.specs.Prelude.{◌≡◌, ◌&&◌, T, leb};
ghost use Rattle.bits.specs.Byte.{is_digit};
ghost use Rattle.text.specs.Token.{every};
ghost use Rattle.rule.specs.Limits.{in_form, value_from};
ghost use Rattle.atoms.specs.Atom.{refusal_of, Next, ObjectSays, NumeralSays, ComparedSays, AtomAt};
ghost use Rattle.atoms.specs.Inside.Parts.{ComparisonSays, SymbolSays, ZeroSays};

use table::reason::{Reason, Refusal};
use text::{Sign, Token, Word};
use tokeniser::token_at;

// What `read` is compared with. A letter keeps its place: one outside the alphabet is refused there.
#[derive(Clone, Copy, Debug, PartialEq, Eq)]
pub enum Symbol {
    Letter { byte: u8, place: usize },
    Lend,
    Rend,
}

#[derive(Clone, Copy, Debug, PartialEq, Eq)]
pub enum Atom {
    Read { equal: bool, symbol: Symbol },
    Counter { zero: bool },
}

// An atom, and the byte behind it.
#[derive(Clone, Copy, Debug, PartialEq, Eq)]
pub struct AtomRead {
    pub atom: Atom,
    pub at: usize,
}

// The refusal of a token with which no program goes on.
pub fn refuse(token: Token) -> Refusal
    ensures { result ≡ refusal_of token }
{
    match token {
        Token::Word { at, .. }
        | Token::Number { at, .. }
        | Token::Letter { at, .. }
        | Token::Sign { at, .. }
        | Token::End { at } => Refusal {
            reason: Reason::Misplaced,
            place: at,
        },
        Token::Broken { at } => Refusal {
            reason: Reason::NoToken,
            place: at,
        },
    }
}

// The atom that stands here, or the refusal of the first token that no atom has.
pub fn atom_at(text: &[u8], at: usize) -> Result<AtomRead, Refusal>
    ensures { AtomAt text.now at result }
{
    let token = token_at(text, at);
    let Token::Word { end, word, .. } = token else {
        return Err(refuse(token));
    };
    match word {
        Word::Read => read_test_at(text, end),
        Word::C => counter_test_at(text, end),
        _ => Err(refuse(token)),
    }
}

// Behind `read`.
fn read_test_at(text: &[u8], at: usize) -> Result<AtomRead, Refusal>
    ensures { Next text.now at (λ t. ComparedSays text.now ObjectSays t result) }
{
    let (equal, at) = comparison_of(token_at(text, at))?;
    let (symbol, at) = symbol_of(token_at(text, at))?;
    Ok(AtomRead {
        atom: Atom::Read { equal, symbol },
        at,
    })
}

// Behind `c`, which is tested against 0 only.
fn counter_test_at(text: &[u8], at: usize) -> Result<AtomRead, Refusal>
    ensures { Next text.now at (λ t. ComparedSays text.now (NumeralSays text.now) t result) }
{
    let (zero, at) = comparison_of(token_at(text, at))?;
    let at = zero_at(text, at)?;
    Ok(AtomRead {
        atom: Atom::Counter { zero },
        at,
    })
}

// Whether for being equal, and the byte behind the sign.
fn comparison_of(token: Token) -> Result<(bool, usize), Refusal>
    ensures { ComparisonSays token result }
{
    let Token::Sign { end, sign, .. } = token else {
        return Err(refuse(token));
    };
    match sign {
        Sign::Equals => Ok((true, end)),
        Sign::Differs => Ok((false, end)),
        _ => Err(refuse(token)),
    }
}

// What `read` is compared with, and the byte behind it.
fn symbol_of(token: Token) -> Result<(Symbol, usize), Refusal>
    ensures { SymbolSays token result }
{
    let Token::Word { end, word, .. } = token else {
        let Token::Letter { at, end, byte } = token else {
            return Err(refuse(token));
        };
        return Ok((Symbol::Letter { byte, place: at }, end));
    };
    match word {
        Word::Lend => Ok((Symbol::Lend, end)),
        Word::Rend => Ok((Symbol::Rend, end)),
        _ => Err(refuse(token)),
    }
}

// The byte behind a 0.
fn zero_at(text: &[u8], at: usize) -> Result<usize, Refusal>
    ensures { Next text.now at (λ t. ZeroSays text.now t result) }
{
    let token = token_at(text, at);
    let Token::Number { at: place, end } = token else {
        return Err(refuse(token));
    };
    if !is_zero(&text[place..end]) {
        return Err(Refusal {
            reason: Reason::Number,
            place,
        });
    }
    Ok(end)
}

// Whether digits are 0, without a leading zero. (`reader` asks of other numbers whether they are too great; here 0 alone may stand.)
fn is_zero(digits: &[u8]) -> bool
    requires { T (every is_digit digits.now) }
    ensures { result ≡ (in_form digits.now && leb (value_from 0 digits.now) 0) }
{
    digits.len() == 1 && digits[0] == b'0'
}
