// The two settings, each once, in either order.
ghost use Rattle.std.specs.Prelude.{◌≡◌, List, [], ◌∷◌, ℕ, ◌≤◌, length};
ghost use Rattle.rule.specs.Inside.Class.{Fixed};
ghost use Rattle.rule.specs.Inside.Machine.{exact, program, body, letters, more_letters, truth, start};
ghost use Rattle.reader.specs.Inside.Answers.{alphabet_of, spot, before, ReadsOn, AnswersWith};

use super::answers::Reader;
use super::letters::Letters;
use atoms::refuse;
use table::reason::{Reason, Refusal};
use text::{Sign, Token, Word};

impl<'a> Reader<'a> {
    // One letter more: none of those before it, and no 17th.
    fn letter(self, listed: Letters) -> Result<(Reader<'a>, Letters), Refusal>
        ensures { AnswersWith self.entry.text.now (before self.entry (letters ∷ []) (alphabet_of listed)) (more_letters ∷ []) result }
    {
        let (token, behind) = self.next();
        let Token::Letter {
            at: place,
            byte,
            ..
        } = token
        else {
            return Err(refuse(token));
        };
        if listed.has(byte) || listed.count == 16 {
            return Err(Refusal {
                reason: Reason::Alphabet,
                place,
            });
        }
        Ok((behind, listed.with(byte)))
    }

    // The letters, up to the `]` and past it.
    fn letters(self) -> Result<(Reader<'a>, Letters), Refusal>
        ensures { AnswersWith self.entry.text.now (before self.entry (letters ∷ []) []) [] result }
    {
        let mut reader = self;
        let mut listed = Letters::none();
        loop {
            let (behind, more) = reader.letter(listed)?;
            let (token, next) = behind.next();
            if let Ok(closed) = next.after_sign(token, Sign::CloseBracket) {
                return Ok((closed, more));
            }
            reader = next.after_sign(token, Sign::Comma)?;
            listed = more;
        }
    }

    // Behind `alphabet`.
    fn alphabet(self) -> Result<(Reader<'a>, Letters), Refusal>
        ensures { AnswersWith self.entry.text.now (before self.entry (exact Fixed.equals ∷ exact Fixed.open_list ∷ letters ∷ exact Fixed.semicolon ∷ []) []) [] result }
    {
        let inside = self.sign(Sign::Becomes)?.sign(Sign::OpenBracket)?;
        let (closed, letters) = inside.letters()?;
        Ok((closed.sign(Sign::Semicolon)?, letters))
    }

    // Behind `decr_on_zero`.
    fn truth(self) -> Result<Reader<'a>, Refusal>
        ensures { (a : List ℕ) → ReadsOn self.entry (exact Fixed.equals ∷ truth ∷ []) [] a result }
    {
        let is = self.sign(Sign::Becomes)?;
        let (token, behind) = is.next();
        let yes = behind.after_word(token, Word::True);
        let said = yes.or(behind.after_word(token, Word::False))?;
        said.sign(Sign::Semicolon)
    }
}

// The settings of a text, from its first byte on.
pub fn settings_of(text: &[u8]) -> Result<(Reader<'_>, Letters), Refusal>
    requires { length text.now ≤ 4096 }
    ensures { AnswersWith text.now (spot 0 (program ∷ []) start) (body ∷ []) result }
{
    let first = Reader::new(text);
    let (token, behind) = first.next();
    if let Ok(decrement) = behind.after_word(token, Word::DecrOnZero) {
        return decrement.truth()?.word(Word::Alphabet)?.alphabet();
    }
    let (reader, letters) = behind.after_word(token, Word::Alphabet)?.alphabet()?;
    let decrement = reader.word(Word::DecrOnZero)?;
    Ok((decrement.truth()?, letters))
}
