// Plain statements, behind their first word.
ghost use Rattle.std.specs.Prelude.{List, [], ◌∷◌, ℕ};
ghost use Rattle.rule.specs.Inside.Class.{Fixed};
ghost use Rattle.rule.specs.Inside.Machine.{exact, distance, end, change};
ghost use Rattle.reader.specs.Inside.Answers.{ReadsOn};

use super::answers::Reader;
use table::reason::Refusal;
use text::{Sign, Word};

impl<'a> Reader<'a> {
    // `) ;`
    fn close(self) -> Result<Reader<'a>, Refusal>
        ensures { (a : List ℕ) → ReadsOn self.entry (exact Fixed.closes ∷ exact Fixed.semicolon ∷ []) [] a result }
    {
        self.sign(Sign::CloseParen)?.sign(Sign::Semicolon)
    }

    // `n ) ;` or `- n ) ;`
    fn distance(self) -> Result<Reader<'a>, Refusal>
        ensures { (a : List ℕ) → ReadsOn self.entry (distance ∷ []) [] a result }
    {
        let number = self.sign(Sign::Minus).unwrap_or(self);
        number.number(63)?.close()
    }

    pub fn behind_move(self) -> Result<Reader<'a>, Refusal>
        ensures { (a : List ℕ) → ReadsOn self.entry (exact Fixed.opens ∷ distance ∷ []) [] a result }
    {
        self.sign(Sign::OpenParen)?.distance()
    }

    pub fn behind_goto(self) -> Result<Reader<'a>, Refusal>
        ensures { (a : List ℕ) → ReadsOn self.entry (exact Fixed.opens ∷ end ∷ []) [] a result }
    {
        let inside = self.sign(Sign::OpenParen)?;
        let (token, behind) = inside.next();
        let lend = behind.after_word(token, Word::Lend);
        let mark = lend.or(behind.after_word(token, Word::Rend))?;
        mark.close()
    }

    // Behind `c`.
    pub fn behind_c(self) -> Result<Reader<'a>, Refusal>
        ensures { (a : List ℕ) → ReadsOn self.entry (change ∷ []) [] a result }
    {
        let (token, behind) = self.next();
        let up = behind.after_sign(token, Sign::Increment);
        let one = up.or(behind.after_sign(token, Sign::Decrement));
        if let Ok(changed) = one {
            return changed.sign(Sign::Semicolon);
        }
        let add = behind.after_sign(token, Sign::Add);
        let many = add.or(behind.after_sign(token, Sign::Subtract))?;
        many.number(31)?.sign(Sign::Semicolon)
    }
}
