// Numbers: no leading zero, except 0 itself, at most two digits, and none above the greatest that may stand there.
ghost use Rattle.std.specs.Prelude.{◌≡◌, List, [], ◌∷◌, ℕ, ◌-◌, ◌≤◌, T};
ghost use Rattle.bits.specs.Byte.{is_digit};
ghost use Rattle.text.specs.Token.{every};
ghost use Rattle.rule.specs.Inside.Machine.{number, outside};
ghost use Rattle.reader.specs.Inside.Answers.{ReadsOn};

use super::answers::Reader;
use atoms::refuse;
use table::reason::{Reason, Refusal};
use text::Token;

fn digit(byte: u8) -> usize
    requires { T (is_digit byte) }
    ensures { (result ≡ byte - 48) × (result ≤ 9) }
{
    (byte - b'0') as usize
}

pub fn out_of_range(digits: &[u8], greatest: usize) -> bool
    requires { T (every is_digit digits.now) }
    ensures { result ≡ outside greatest digits.now }
{
    if digits.len() == 1 {
        return digit(digits[0]) > greatest;
    }
    if digits.len() != 2 {
        return true;
    }
    if digits[0] == b'0' {
        return true;
    }
    10 * digit(digits[0]) + digit(digits[1]) > greatest
}

impl<'a> Reader<'a> {
    pub fn number(self, greatest: usize) -> Result<Reader<'a>, Refusal>
        ensures { (a : List ℕ) → ReadsOn self.entry (number greatest ∷ []) [] a result }
    {
        let (token, behind) = self.next();
        let Token::Number { at: place, end } = token else {
            return Err(refuse(token));
        };
        if out_of_range(&self.text[place..end], greatest) {
            return Err(Refusal {
                reason: Reason::Number,
                place,
            });
        }
        Ok(behind)
    }
}
