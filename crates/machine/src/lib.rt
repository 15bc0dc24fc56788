// One row's step: whether it can be taken, and what it comes to within a limit.
#![tactic(auto)]

ghost use Rattle.std.specs.Prelude.{◌≡◌, ◌&&◌, ◌+◌, length, get_or, ltb, eqb};
ghost use Rattle.std.proofs.Math.Option.{some};
ghost use Rattle.table.specs.Fields.{table_of};
ghost use Rattle.table.specs.RowCode.{row_is};
ghost use Rattle.cells.specs.Code.{symbol_is};
ghost use Rattle.machine.specs.Step.{symbol_fits, counter_fits, changed};
ghost use Rattle.machine.specs.Outcome.{step_from, Steps};
ghost use Rattle.machine.specs.Inside.Change.{outcome_of};

use cells::{Symbol, head};
use table::{Row, form};

// What a row's step comes to: a cell and a counter, or the row can't be taken, or it would pass the limit. The search goes on after each,
// so none of the three is an error.
#[derive(Clone, Copy, Debug, PartialEq, Eq)]
pub enum Outcome {
    Goes { cell: usize, counter: usize },
    Blocked,
    OverLimit,
}

const NO_CHANGE: usize = form::NO_CHANGE as usize;

// Whether a row's symbol is a letter of the alphabet, and this one.
fn letter_fits(image: &[u8], code: u8, b: u8) -> bool
    ensures { result ≡ (ltb code (length (table_of image.now).alphabet) && eqb (get_or (table_of image.now).alphabet code 0) b) }
{
    let at = usize::from(code);
    if fields::letter_count(image) <= at {
        return false;
    }
    if image.len() <= at + form::LETTERS_PLACE {
        return false;
    }
    fields::letter_at(image, at) == b
}

// Whether a row's symbol is what stands on a cell.
pub fn symbol_fits(image: &[u8], code: u8, seen: Symbol) -> bool
    ensures { result ≡ symbol_fits (table_of image.now).alphabet code (symbol_is seen) }
{
    let any = code == form::ANY_SYMBOL;
    if any {
        return true;
    }
    match seen {
        Symbol::LeftMark => code == form::LEFT_MARK,
        Symbol::Letter(b) => letter_fits(image, code, b),
        Symbol::RightMark => code == form::RIGHT_MARK,
    }
}

// Whether a row's test fits the counter.
pub fn counter_fits(test: u8, counter: usize) -> bool
    ensures { result ≡ counter_fits test counter }
{
    let either = test == form::EITHER_COUNTER;
    if either {
        return true;
    }
    if counter == 0 {
        test == form::ZERO_COUNTER
    } else {
        test == form::ABOVE_ZERO
    }
}

// A change of the counter by what the code is above or below NO_CHANGE, within a limit, on the way to a cell.
fn changed(decr_on_zero: bool, code: u8, counter: usize, cell: usize, limit: usize) -> Outcome
    ensures { result ≡ outcome_of limit cell (changed decr_on_zero code counter) }
{
    let by = usize::from(code);
    if NO_CHANGE <= by {
        return raised(by - NO_CHANGE, counter, cell, limit);
    }
    match counter.checked_sub(NO_CHANGE - by) {
        Some(lowered) => raised(0, lowered, cell, limit),
        None if decr_on_zero => Outcome::Goes { cell, counter: 0 },
        None => Outcome::Blocked,
    }
}

fn raised(by: usize, counter: usize, cell: usize, limit: usize) -> Outcome
    ensures { result ≡ outcome_of limit cell (some (counter + by)) }
{
    if limit < by {
        return Outcome::OverLimit;
    }
    if limit - by < counter {
        return Outcome::OverLimit;
    }
    Outcome::Goes {
        cell,
        counter: counter + by,
    }
}

// One row's step from the state that it leaves, a cell and a counter, within a limit.
pub fn step(
    image: &[u8],
    word: &[u8],
    row: Row,
    cell: usize,
    counter: usize,
    limit: usize,
) -> Outcome
    ensures { Steps (table_of image.now) word.now (row_is row) limit (step_from (row_is row) cell counter) result }
{
    let seen = head::seen(word, cell);
    if symbol_fits(image, row.symbol, seen) {
        if counter_fits(row.test, counter) {
            let next = head::goes(word, row.motion, cell);
            let decr_on_zero = fields::decr_on_zero(image);
            return changed(decr_on_zero, row.change, counter, next, limit);
        }
    }
    Outcome::Blocked
}
