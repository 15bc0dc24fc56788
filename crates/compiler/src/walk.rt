// The condition walker. A condition is walked together with its sign from the emitter's state to another, and adds its rows. The sign is a
// flag, as document 01 names it.
ghost use Rattle.std.specs.Prelude.{◌+◌, ◌≤◌, ◌<◌, ◌≡◌, List, [], ◌∷◌, length, get_or, ℕ};
ghost use Rattle.construction.specs.Construction.{all_symbols, without, symbol_rows};
ghost use Rattle.compiler.specs.Inside.Writing.{Held, Room, Adds};
ghost use Rattle.compiler.specs.Inside.Operators.{is_or};
ghost use Rattle.compiler.specs.Inside.Atoms.{counter_rows, read_rows, walked_as, rows_of, Codes};
ghost use Rattle.compiler.specs.Inside.Emission.{Ready, Emits, AtomTask, WalkTask, joins, joined, takes, Leads, TestTask};
ghost use Rattle.rule.specs.Grammar.{tightest};

use super::Emitter;
use super::ahead::Operator;
use super::write::Image;
use atoms::{Atom, AtomRead, Symbol};
use table::form;
use text::Sign;

const LEFT_MARK: usize = form::LEFT_MARK as usize;

// The symbols in order: the letters, the left mark, the right mark.
fn nth(i: usize, letters: usize) -> u8
    requires { (letters ≤ 16) × (i < letters + 2) }
    ensures { (alphabet : List ℕ) → letters ≡ length alphabet → result ≡ get_or (all_symbols alphabet) i 0 }
{
    if i < letters {
        i as u8
    } else {
        (i - letters + LEFT_MARK) as u8
    }
}

// Whether a comparison is walked as `==`.
fn walked_as_is(equal: bool, sign: bool) -> bool
    ensures { result ≡ walked_as equal sign }
{
    equal == sign
}

impl Image<'_> {
    // The code of what `read` is compared with.
    fn code_of(&self, symbol: Symbol) -> u8
        requires { Held self.now.out.now }
        ensures { Codes self.now.out.now symbol result }
    {
        match symbol {
            Symbol::Letter { byte, place: _ } => self.letter(byte),
            Symbol::Lend => form::LEFT_MARK,
            Symbol::Rend => form::RIGHT_MARK,
        }
    }

    // The row of one symbol, unless it is the one that is left out.
    fn add_unless(&mut self, from: usize, to: usize, left_out: u8, symbol: u8)
        requires { Room self.old.out.now self.old.row (λ _. symbol_rows (without left_out (symbol ∷ [])) from to) × (from ≤ 128) × (to ≤ 128) }
        ensures { Adds self.old self.new (λ _. symbol_rows (without left_out (symbol ∷ [])) from to) }
    {
        if symbol != left_out {
            self.add_test(from, symbol, form::EITHER_COUNTER, to);
        }
    }

    // One row for each other symbol.
    fn add_others(&mut self, from: usize, to: usize, left_out: u8)
        requires { Room self.old.out.now self.old.row (λ alphabet. symbol_rows (without left_out (all_symbols alphabet)) from to) × (from ≤ 128) × (to ≤ 128) }
        ensures { Adds self.old self.new (λ alphabet. symbol_rows (without left_out (all_symbols alphabet)) from to) }
    {
        let letters = self.letters();
        for i in 0..letters + 2 {
            self.add_unless(from, to, left_out, nth(i, letters));
        }
    }

    // The row of a test of the counter.
    fn add_counter(&mut self, from: usize, to: usize, is: bool)
        requires { Room self.old.out.now self.old.row (λ _. counter_rows is from to) × (from ≤ 128) × (to ≤ 128) }
        ensures { Adds self.old self.new (λ _. counter_rows is from to) }
    {
        if is {
            self.add_test(from, form::ANY_SYMBOL, form::ZERO_COUNTER, to);
        } else {
            self.add_test(from, form::ANY_SYMBOL, form::ABOVE_ZERO, to);
        }
    }

    // The rows of a test of what is read.
    fn add_read(&mut self, from: usize, to: usize, code: u8, is: bool)
        requires { Room self.old.out.now self.old.row (λ alphabet. read_rows alphabet is code from to) × (from ≤ 128) × (to ≤ 128) }
        ensures { Adds self.old self.new (λ alphabet. read_rows alphabet is code from to) }
    {
        if is {
            self.add_test(from, code, form::EITHER_COUNTER, to);
        } else {
            self.add_others(from, to, code);
        }
    }

    // The rows of an atom with its sign.
    fn add_atom(&mut self, from: usize, to: usize, atom: Atom, sign: bool)
        requires { Room self.old.out.now self.old.row (λ alphabet. rows_of atom sign alphabet from to) × (from ≤ 128) × (to ≤ 128) }
        ensures { Adds self.old self.new (λ alphabet. rows_of atom sign alphabet from to) }
    {
        match atom {
            Atom::Read { equal, symbol } => {
                let code = self.code_of(symbol);
                self.add_read(from, to, code, walked_as_is(equal, sign));
            }
            Atom::Counter { zero } => self.add_counter(from, to, walked_as_is(zero, sign)),
        }
    }
}

// Whether an operator takes a state: `&&` where the condition is to hold, `||` where it is to fail.
fn takes_state(sign: bool, operator: Operator) -> bool
    ensures { result ≡ takes (is_or operator) sign }
{
    match operator {
        Operator::And => sign,
        Operator::Or => !sign,
    }
}

// Where what stands before an operator is walked to, where what stands behind it is walked from, and the next state to be
// taken.
#[derive(Clone, Copy)]
struct Course {
    to: usize,
    from: usize,
    next: usize,
}

fn way(state: usize, next: usize, to: usize, taking: bool) -> Course
    requires { next ≤ 128 }
    ensures { Leads taking to state next result }
{
    if taking {
        Course {
            to: next,
            from: next,
            next: next + 1,
        }
    } else {
        Course {
            to,
            from: state,
            next,
        }
    }
}

impl Emitter<'_, '_> {
    // An atom, as the reader answers it. In a program that is known to have one here it is found.
    fn emit_atom(&mut self, to: usize, sign: bool)
        requires { Ready (AtomTask to sign) self.old }
        ensures { Emits (AtomTask to sign) self.old self.new }
    {
        let Ok(AtomRead { atom, at }) = atoms::atom_at(self.cursor.text, self.cursor.at) else {
            unreachable!()
        };
        self.image.add_atom(self.state, to, atom, sign);
        self.cursor.at = at;
    }

    // What binds tightest: an atom, a negation, a condition in parentheses.
    #[cycle(walk)]
    fn emit_operand(&mut self, to: usize, sign: bool)
        requires { Ready (WalkTask tightest to sign) self.old }
        ensures { Emits (WalkTask tightest to sign) self.old self.new }
    {
        let token = self.cursor.next();
        if self.cursor.past_sign(token, Sign::Not) {
            self.emit_operand(to, !sign);
        } else if self.cursor.past_sign(token, Sign::OpenParen) {
            self.emit_chain(to, sign, Operator::Or);
            self.cursor.skip(1);
        } else {
            self.emit_atom(to, sign);
        }
    }

    // What an operator joins: of `||` what `&&` joins, of `&&` what binds tightest.
    #[cycle(walk)]
    fn emit_side(&mut self, to: usize, sign: bool, operator: Operator)
        requires { Ready (WalkTask (joined (is_or operator)) to sign) self.old }
        ensures { Emits (WalkTask (joined (is_or operator)) to sign) self.old self.new }
    {
        match operator {
            Operator::And => self.emit_operand(to, sign),
            Operator::Or => self.emit_chain(to, sign, Operator::And),
        }
    }

    // What an operator joins with others of it, which group to the right, or one side alone.
    #[cycle(walk)]
    fn emit_chain(&mut self, to: usize, sign: bool, operator: Operator)
        requires { Ready (WalkTask (joins (is_or operator)) to sign) self.old }
        ensures { Emits (WalkTask (joins (is_or operator)) to sign) self.old self.new }
    {
        if self.cursor.operator_ahead(operator) {
            let from = self.state;
            let course = way(from, self.next, to, takes_state(sign, operator));
            self.next = course.next;
            self.emit_side(course.to, sign, operator);
            self.cursor.skip(1);
            self.state = course.from;
            self.emit_chain(to, sign, operator);
            self.state = from;
        } else {
            self.emit_side(to, sign, operator);
        }
    }

    // A condition in its own parentheses: its rows from the state to `yes`, and those of its negation to `no`.
    pub fn emit_condition(&mut self, yes: usize, no: usize)
        requires { Ready (TestTask yes no) self.old }
        ensures { Emits (TestTask yes no) self.old self.new }
    {
        self.cursor.skip(1);
        let inside = self.cursor;
        self.emit_chain(yes, true, Operator::Or);
        self.cursor = inside;
        self.emit_chain(no, false, Operator::Or);
        self.cursor.skip(1);
    }
}
