// A whole program: its settings, `twoc ( string )`, a block, and no more.
ghost use Rattle.std.specs.Prelude.{◌≡◌, List, [], ◌∷◌, ℕ, ◌≤◌, length};
ghost use Rattle.rule.specs.Inside.Machine.{body, block, outcome};
ghost use Rattle.reader.specs.Inside.Answers.{ReadsOn, outcome_of};

use super::answers::{Counts, Reader};
use super::scope::Scope;
use super::settings::settings_of;
use atoms::refuse;
use table::reason::Refusal;
use text::{Sign, Token, Word};
use tokeniser::token_at;

impl<'a> Reader<'a> {
    // `twoc ( string )`
    fn head(self) -> Result<Reader<'a>, Refusal>
        ensures { (a : List ℕ) → ReadsOn self.entry (body ∷ []) (block 0 ∷ []) a result }
    {
        let opened = self.word(Word::Twoc)?.sign(Sign::OpenParen)?;
        opened.word(Word::String)?.sign(Sign::CloseParen)
    }
}

pub fn program_of(text: &[u8]) -> Result<Counts, Refusal>
    requires { length text.now ≤ 4096 }
    ensures { outcome text.now ≡ outcome_of result }
{
    let (settled, letters) = settings_of(text)?;
    let reader = settled.head()?.block(Scope::new(letters))?;
    let token = token_at(text, reader.at);
    let Token::End { .. } = token else {
        return Err(refuse(token));
    };
    Ok(reader.counts)
}
