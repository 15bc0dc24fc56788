// The statements that hold no block. Each starts behind its first word.
ghost use Rattle.std.specs.Prelude.{◌≤◌, [], ◌∷◌};
ghost use Rattle.text.specs.Token.{w};
ghost use Rattle.compiler.specs.Inside.Writing.{Room};
ghost use Rattle.compiler.specs.Inside.Emission.{step_row, Steps, Stops, Ready, Emits, HeadedTask};

use super::Emitter;
use table::{Row, form};
use text::{Sign, Word};

// A change by one.
const UP: u8 = form::NO_CHANGE + 1;

const DOWN: u8 = form::NO_CHANGE - 1;

impl Emitter<'_, '_> {
    // A row with an effect, to a state that is taken for it, and past the statement's last tokens, so many.
    fn step(&mut self, motion: u8, change: u8, many: usize)
        requires { Room self.old.image.now.out.now self.old.image.now.row (λ _. step_row motion change self.old.state self.old.next ∷ []) × (self.old.state ≤ 128) × (self.old.next ≤ 128) }
        ensures { Steps self.old self.new motion change many }
    {
        let to = self.next;
        self.image.add(Row {
            from: self.state,
            symbol: form::ANY_SYMBOL,
            test: form::EITHER_COUNTER,
            motion,
            change,
            to,
        });
        self.cursor.skip(many);
        self.state = to;
        self.next = to + 1;
    }

    // move ( n ) ; and move ( - n ) ;
    pub fn emit_move(&mut self)
        requires { Ready (HeadedTask (w "move")) self.old }
        ensures { Emits (HeadedTask (w "move")) self.old self.new }
    {
        self.cursor.skip(1);
        let token = self.cursor.next();
        if self.cursor.past_sign(token, Sign::Minus) {
            let n = self.cursor.number();
            self.step(form::NO_MOVE - n, form::NO_CHANGE, 2);
        } else {
            let n = self.cursor.past_number(token);
            self.step(form::NO_MOVE + n, form::NO_CHANGE, 2);
        }
    }

    // goto ( lend ) ; and goto ( rend ) ;
    pub fn emit_goto(&mut self)
        requires { Ready (HeadedTask (w "goto")) self.old }
        ensures { Emits (HeadedTask (w "goto")) self.old self.new }
    {
        self.cursor.skip(1);
        let token = self.cursor.next();
        if self.cursor.past_word(token, Word::Lend) {
            self.step(form::TO_LEFT, form::NO_CHANGE, 2);
        } else {
            self.cursor.past(token);
            self.step(form::TO_RIGHT, form::NO_CHANGE, 2);
        }
    }

    // c ++ ; and c -- ; and c += n ; and c -= n ;
    pub fn emit_change(&mut self)
        requires { Ready (HeadedTask (w "c")) self.old }
        ensures { Emits (HeadedTask (w "c")) self.old self.new }
    {
        let token = self.cursor.next();
        if self.cursor.past_sign(token, Sign::Increment) {
            self.step(form::NO_MOVE, UP, 1);
        } else if self.cursor.past_sign(token, Sign::Decrement) {
            self.step(form::NO_MOVE, DOWN, 1);
        } else if self.cursor.past_sign(token, Sign::Add) {
            let n = self.cursor.number();
            self.step(form::NO_MOVE, form::NO_CHANGE + n, 1);
        } else {
            self.cursor.past(token);
            let n = self.cursor.number();
            self.step(form::NO_MOVE, form::NO_CHANGE - n, 1);
        }
    }

    // accept ; and reject ; take a state and add no row.
    pub fn emit_stop(&mut self)
        requires { self.old.next ≤ 128 }
        ensures { Stops self.old self.new }
    {
        self.cursor.skip(1);
        self.state = self.next;
        self.next += 1;
    }
}
