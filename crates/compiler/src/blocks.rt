// Blocks and the statements that hold them. A block's emitter and a statement's call each other, as their readers do.
ghost use Rattle.std.specs.Prelude.{◌<◌};
ghost use Rattle.text.specs.Token.{w};
ghost use Rattle.compiler.specs.Inside.Emission.{Ready, Emits, HeadedTask, EntryTask, StatementTask, RestTask, BodyTask, ElseTask, ArmsTask};

use super::Emitter;
use text::{Sign, Word};

impl Emitter<'_, '_> {
    // A block, and a free row from its exit.
    #[cycle(blocks)]
    fn emit_block(&mut self, to: usize)
        requires { Ready (BodyTask to) self.old }
        ensures { Emits (BodyTask to) self.old self.new }
    {
        self.cursor.skip(1);
        self.emit_statements();
        self.image.add_free(self.state, to);
        self.state = to;
    }

    // `else` and its block, or nothing; then a free row.
    #[cycle(blocks)]
    fn emit_else(&mut self, to: usize)
        requires { Ready (ElseTask to) self.old }
        ensures { Emits (ElseTask to) self.old self.new }
    {
        if self.cursor.eat_word(Word::Else) {
            self.emit_block(to);
        } else {
            self.image.add_free(self.state, to);
            self.state = to;
        }
    }

    // if ( cond ) block, with an optional else block. Each of the statements below starts behind its first word.
    #[cycle(blocks)]
    fn emit_if(&mut self)
        requires { Ready (HeadedTask (w "if")) self.old }
        ensures { Emits (HeadedTask (w "if")) self.old self.new }
    {
        let exit = self.next;
        let yes = exit + 1;
        let no = exit + 2;
        self.next = exit + 3;
        self.emit_condition(yes, no);
        self.state = yes;
        self.emit_block(exit);
        self.state = no;
        self.emit_else(exit);
    }

    // What stands between `while` and its block: `choose`, or a condition.
    fn emit_entry(&mut self, into: usize, over: usize)
        requires { Ready (EntryTask into over) self.old }
        ensures { Emits (EntryTask into over) self.old self.new }
    {
        if self.cursor.eat_word(Word::Choose) {
            self.image.add_free(self.state, into);
            self.image.add_free(self.state, over);
        } else {
            self.emit_condition(into, over);
        }
    }

    // while ( cond ) block and while choose block
    #[cycle(blocks)]
    fn emit_while(&mut self)
        requires { Ready (HeadedTask (w "while")) self.old }
        ensures { Emits (HeadedTask (w "while")) self.old self.new }
    {
        let from = self.state;
        let exit = self.next;
        let into = exit + 1;
        self.next = exit + 2;
        self.emit_entry(into, exit);
        self.state = into;
        self.emit_block(from);
        self.state = exit;
    }

    // Arms, behind the word before the first of them.
    #[cycle(blocks)]
    fn emit_arms(&mut self, to: usize)
        requires { Ready (ArmsTask to) self.old }
        ensures { Emits (ArmsTask to) self.old self.new }
    {
        let from = self.state;
        let into = self.next;
        self.image.add_free(from, into);
        self.state = into;
        self.next = into + 1;
        self.emit_block(to);
        if self.cursor.eat_word(Word::Also) {
            self.state = from;
            self.emit_arms(to);
        }
    }

    // branch block also block ..
    #[cycle(blocks)]
    fn emit_branch(&mut self)
        requires { Ready (HeadedTask (w "branch")) self.old }
        ensures { Emits (HeadedTask (w "branch")) self.old self.new }
    {
        let exit = self.next;
        self.next = exit + 1;
        self.emit_arms(exit);
    }

    // accept ; makes the state that it starts from an accepting one.
    fn emit_accept(&mut self)
        requires { Ready (HeadedTask (w "accept")) self.old }
        ensures { Emits (HeadedTask (w "accept")) self.old self.new }
    {
        self.image.accept(self.state);
        self.emit_stop();
    }

    #[cycle(blocks)]
    fn emit_statement(&mut self)
        requires { Ready StatementTask self.old }
        ensures { Emits StatementTask self.old self.new × (self.old.cursor.at < self.new.cursor.at) }
    {
        match self.cursor.word() {
            Word::Move => self.emit_move(),
            Word::Goto => self.emit_goto(),
            Word::C => self.emit_change(),
            Word::Accept => self.emit_accept(),
            Word::Reject => self.emit_stop(),
            Word::If => self.emit_if(),
            Word::While => self.emit_while(),
            _ => self.emit_branch(),
        }
    }

    // What is left of a block, and its brace.
    #[cycle(blocks)]
    pub fn emit_statements(&mut self)
        requires { Ready RestTask self.old }
        ensures { Emits RestTask self.old self.new }
    {
        if !self.cursor.eat_sign(Sign::CloseBrace) {
            self.emit_statement();
            self.emit_statements();
        }
    }
}
