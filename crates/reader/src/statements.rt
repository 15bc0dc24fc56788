// Blocks and statements. A block holds statements, and a statement may hold blocks.
ghost use Rattle.std.specs.Prelude.{[], ◌∷◌};
ghost use Rattle.rule.specs.Inside.Class.{Fixed};
ghost use Rattle.rule.specs.Inside.Machine.{exact, operand, tail, block, statements, or_else, loop, arms};
ghost use Rattle.reader.specs.Inside.Answers.{alphabet_of, Lacks, ReadsOn, Eats};

use super::answers::Reader;
use super::scope::Scope;
use atoms::refuse;
use table::reason::{Reason, Refusal};
use text::{Sign, Token, Word};

impl<'a> Reader<'a> {
    #[cycle(statements)]
    pub fn block(self, scope: Scope) -> Result<Reader<'a>, Refusal>
        ensures { ReadsOn self.entry (block scope.depth ∷ []) [] (alphabet_of scope.letters) result }
    {
        let inside = self.sign(Sign::OpenBrace)?;
        let Some(inner) = scope.opened() else {
            return Err(self.refusal(Reason::Depth));
        };
        inside.statements(inner)
    }

    // The statements of a block, up to the `}` and past it.
    #[cycle(statements)]
    fn statements(self, scope: Scope) -> Result<Reader<'a>, Refusal>
        ensures { ReadsOn self.entry (statements scope.depth ∷ []) [] (alphabet_of scope.letters) result }
    {
        let mut reader = self;
        loop {
            if let Ok(behind) = reader.sign(Sign::CloseBrace) {
                return Ok(behind);
            }
            reader = reader.statement(scope)?;
        }
    }

    // One statement, where no `}` stands.
    #[cycle(statements)]
    fn statement(self, scope: Scope) -> Result<Reader<'a>, Refusal>
        requires { Lacks Fixed.ends self.text.now self.at }
        ensures { Eats self.entry (statements scope.depth ∷ []) (statements scope.depth ∷ []) (alphabet_of scope.letters) result }
    {
        let (token, behind) = self.next();
        let Token::Word { word, .. } = token else {
            return Err(refuse(token));
        };
        match word {
            Word::Move => behind.counting(1, 1).behind_move(),
            Word::Goto => behind.counting(1, 1).behind_goto(),
            Word::C => behind.counting(1, 1).behind_c(),
            Word::Accept | Word::Reject => behind.counting(1, 0).sign(Sign::Semicolon),
            Word::If => behind.counting(3, 2).behind_if(scope),
            Word::While => behind.behind_while(scope),
            Word::Branch => behind.counting(2, 2).behind_branch(scope),
            _ => Err(refuse(token)),
        }
    }

    // A condition behind its `(`, and a block.
    #[cycle(statements)]
    fn guarded(self, scope: Scope) -> Result<Reader<'a>, Refusal>
        ensures { ReadsOn self.entry (operand 0 ∷ tail 0 ∷ block scope.depth ∷ []) [] (alphabet_of scope.letters) result }
    {
        self.condition(Scope::new(scope.letters))?.block(scope)
    }

    #[cycle(statements)]
    fn behind_if(self, scope: Scope) -> Result<Reader<'a>, Refusal>
        ensures { ReadsOn self.entry (exact Fixed.opens ∷ operand 0 ∷ tail 0 ∷ block scope.depth ∷ or_else scope.depth ∷ []) (statements scope.depth ∷ []) (alphabet_of scope.letters) result }
    {
        let guarded = self.sign(Sign::OpenParen)?.guarded(scope)?;
        match guarded.word(Word::Else) {
            Ok(otherwise) => otherwise.block(scope),
            Err(_) => Ok(guarded),
        }
    }

    #[cycle(statements)]
    fn behind_while(self, scope: Scope) -> Result<Reader<'a>, Refusal>
        ensures { ReadsOn self.entry (loop scope.depth ∷ []) [] (alphabet_of scope.letters) result }
    {
        let (token, behind) = self.next();
        if let Ok(chosen) = behind.after_word(token, Word::Choose) {
            return chosen.counting(2, 3).block(scope);
        }
        let opened = behind.after_sign(token, Sign::OpenParen)?;
        opened.counting(2, 1).guarded(scope)
    }

    // Arms, from two to eight: they are counted, since a ninth is refused.
    #[cycle(statements)]
    fn behind_branch(self, scope: Scope) -> Result<Reader<'a>, Refusal>
        ensures { ReadsOn self.entry (block scope.depth ∷ arms scope.depth 1 ∷ []) (statements scope.depth ∷ []) (alphabet_of scope.letters) result }
    {
        let second = self.block(scope)?.word(Word::Also)?;
        let mut arm = second.counting(1, 2).block(scope)?;
        let mut arms: usize = 2;
        while let Ok(also) = arm.word(Word::Also) {
            if arms == 8 {
                return Err(arm.refusal(Reason::Arms));
            }
            arm = also.counting(1, 2).block(scope)?;
            arms += 1;
        }
        Ok(arm)
    }
}
