// Conditions. Which operator binds tighter changes no count, so operands are read in a row.
ghost use Rattle.std.specs.Prelude.{◌≡◌, [], ◌∷◌, ℕ, ◌+◌, ◌^◌, ◌<◌};
ghost use Rattle.rule.specs.Inside.Machine.{operand, tail};
ghost use Rattle.reader.specs.Inside.Answers.{alphabet_of, ReadsOn};
ghost use Rattle.reader.specs.Inside.Atoms.{OpensNothing, rows_of, stray_of};

use super::answers::Reader;
use super::letters::Letters;
use super::scope::Scope;
use atoms::{Atom, Symbol, atom_at};
use table::reason::{Reason, Refusal};
use text::Sign;

fn rows_of(atom: Atom, letters: usize) -> usize
    requires { letters + 2 < 2 ^ 64 }
    ensures { result ≡ rows_of letters atom }
{
    match atom {
        Atom::Read { .. } => letters + 2,
        Atom::Counter { .. } => 2,
    }
}

// Where an atom's letter stands, if it is outside the alphabet.
fn stray_of(atom: Atom, letters: Letters) -> Option<usize>
    ensures { result ≡ stray_of (alphabet_of letters) atom }
{
    let Atom::Read { symbol, .. } = atom else {
        return None;
    };
    let Symbol::Letter { byte, place } = symbol else {
        return None;
    };
    if letters.has(byte) { None } else { Some(place) }
}

impl<'a> Reader<'a> {
    // An atom with its rows. A letter outside the alphabet is refused.
    fn atom(self, letters: Letters) -> Result<Reader<'a>, Refusal>
        requires { OpensNothing self.text.now self.at }
        ensures { (n : ℕ) → ReadsOn self.entry (operand n ∷ []) [] (alphabet_of letters) result }
    {
        let read = atom_at(self.text, self.at)?;
        if let Some(place) = stray_of(read.atom, letters) {
            return Err(Refusal {
                reason: Reason::OutsideAlphabet,
                place,
            });
        }
        let behind = self.onward(read.at);
        Ok(behind.counting(0, rows_of(read.atom, letters.count)))
    }

    // One operand.
    #[cycle(conditions)]
    fn operand(self, scope: Scope) -> Result<Reader<'a>, Refusal>
        ensures { ReadsOn self.entry (operand scope.depth ∷ []) [] (alphabet_of scope.letters) result }
    {
        let (token, behind) = self.next();
        if let Ok(inside) = behind.after_sign(token, Sign::OpenParen) {
            let Some(inner) = scope.opened() else {
                return Err(self.refusal(Reason::Depth));
            };
            return inside.condition(inner);
        }
        if let Ok(negated) = behind.after_sign(token, Sign::Not) {
            let Some(inner) = scope.opened() else {
                return Err(self.refusal(Reason::Depth));
            };
            return negated.operand(inner);
        }
        self.atom(scope.letters)
    }

    // Operands with `&&` and `||` between them, up to the `)` and past it.
    #[cycle(conditions)]
    pub fn condition(self, scope: Scope) -> Result<Reader<'a>, Refusal>
        ensures { ReadsOn self.entry (operand scope.depth ∷ tail scope.depth ∷ []) [] (alphabet_of scope.letters) result }
    {
        let mut reader = self;
        loop {
            let read = reader.operand(scope)?;
            let (token, behind) = read.next();
            if let Ok(closed) = behind.after_sign(token, Sign::CloseParen) {
                return Ok(closed);
            }
            let and = behind.after_sign(token, Sign::And);
            let joined = and.or(behind.after_sign(token, Sign::Or))?;
            reader = joined.counting(1, 0);
        }
    }
}
