// The reader: where it stands in a text, and how it goes on behind a token. Each method that reads answers the reader behind what it
// read, or a refusal.
ghost use Rattle.std.specs.Prelude.{◌≡◌, ℕ, ◌+◌, ◌*◌, ◌≤◌, length};

use atoms::refuse;
use table::reason::{Reason, Refusal};
use text::{Sign, Token, Word};
use tokeniser::token_at;

// The states and rows so far.
#[derive(Clone, Copy, Debug, PartialEq, Eq)]
pub struct Counts {
    pub states: usize,
    pub rows: usize,
}

// A place in a text, with what is counted before it. The text is short and each token counts little, so no count overflows.
#[derive(Clone, Copy)]
pub struct Reader<'a> {
    pub text: &'a [u8],
    pub at: usize,
    pub counts: Counts,
    ghost short: { length text.now ≤ 4096 },
    ghost inside: { at ≤ length text.now },
    ghost few_states: { counts.states ≤ 3 * at + 1 },
    ghost few_rows: { counts.rows ≤ 18 * at },
}

impl<'a> Reader<'a> {
    ghost use Rattle.std.specs.Prelude.{List};
    ghost use Rattle.text.specs.Token as Spelt;
    ghost use Rattle.text.specs.First.{reserved, name, written};
    ghost use Rattle.rule.specs.Inside.Class.{Fixed, spell};
    ghost use Rattle.reader.specs.Inside.Answers.{Starts, Onward, Counted, Took, Refuses, Takes};

    // At the first byte. State 0 is the start. (That the text is short stands in the contracts on the way here, and is a ghost field from
    // here on.)
    pub fn new(text: &'a [u8]) -> Reader<'a>
        requires { length text.now ≤ 4096 }
        ensures { Starts text.now result }
    {
        let counts = Counts { states: 1, rows: 0 };
        Reader {
            text,
            at: 0,
            counts,
        }
    }

    // Further on in the text.
    pub fn onward(self, at: usize) -> Reader<'a>
        requires { (self.at ≤ at) × (at ≤ length self.text.now) }
        ensures { Onward self.entry at result }
    {
        Reader {
            text: self.text,
            at,
            counts: self.counts,
        }
    }

    // With so many states and rows more.
    pub fn counting(self, states: usize, rows: usize) -> Reader<'a>
        requires { (self.counts.states + states ≤ 3 * self.at + 1) × (self.counts.rows + rows ≤ 18 * self.at) }
        ensures { Counted self.entry states rows result }
    {
        let counts = Counts {
            states: self.counts.states + states,
            rows: self.counts.rows + rows,
        };
        Reader {
            text: self.text,
            at: self.at,
            counts,
        }
    }

    // What comes first, and the reader behind it.
    pub fn next(self) -> (Token, Reader<'a>)
        ensures { Took self.entry result.0 result.1 }
    {
        let token = token_at(self.text, self.at);
        let behind = match token {
            Token::Word { end, .. }
            | Token::Number { end, .. }
            | Token::Letter { end, .. }
            | Token::Sign { end, .. } => self.onward(end),
            Token::End { .. } | Token::Broken { .. } => self,
        };
        (token, behind)
    }

    // The refusal of what comes first, for a limit that it breaks.
    pub fn refusal(self, reason: Reason) -> Refusal
        ensures { Refuses self.entry reason result }
    {
        let refusal = refuse(token_at(self.text, self.at));
        Refusal {
            reason,
            place: refusal.place,
        }
    }

    // It is behind this token: that is this word and no other. Where one of several may stand, the token is read once and asked for each,
    // since reading it again would go over all that stands before it again. This and `after_sign` stay two functions, since each takes its
    // own sort of token apart by let .. else.
    pub fn after_word(self, token: Token, wanted: Word) -> Result<Reader<'a>, Refusal>
        ensures { (r : Reader) → Took r token self.entry → (l : List ℕ) (m : Fixed) → name wanted ≡ reserved l → spell m ≡ Spelt.word l → Takes m r result }
    {
        let Token::Word { word, .. } = token else {
            return Err(refuse(token));
        };
        if word == wanted {
            Ok(self)
        } else {
            Err(refuse(token))
        }
    }

    // The same of this sign.
    pub fn after_sign(self, token: Token, wanted: Sign) -> Result<Reader<'a>, Refusal>
        ensures { (r : Reader) → Took r token self.entry → (m : Fixed) → spell m ≡ Spelt.sign (written wanted) → Takes m r result }
    {
        let Token::Sign { sign, .. } = token else {
            return Err(refuse(token));
        };
        if sign == wanted {
            Ok(self)
        } else {
            Err(refuse(token))
        }
    }

    // One word and no other.
    pub fn word(self, wanted: Word) -> Result<Reader<'a>, Refusal>
        ensures { (l : List ℕ) (m : Fixed) → name wanted ≡ reserved l → spell m ≡ Spelt.word l → Takes m self.entry result }
    {
        let (token, behind) = self.next();
        behind.after_word(token, wanted)
    }

    // One sign and no other.
    pub fn sign(self, wanted: Sign) -> Result<Reader<'a>, Refusal>
        ensures { (m : Fixed) → spell m ≡ Spelt.sign (written wanted) → Takes m self.entry result }
    {
        let (token, behind) = self.next();
        behind.after_sign(token, wanted)
    }
}
