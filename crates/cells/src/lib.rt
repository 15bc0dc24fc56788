// The cells of a word: what stands on each, and where a row's move leads.
#![tactic(auto)]

pub mod head; // head.rt: a head, as a struct that holds the word

ghost use Rattle.std.specs.Prelude.{◌≡◌};
ghost use Rattle.cells.specs.Cell.{symbol_on, moved};
ghost use Rattle.cells.specs.Code.{symbol_is};

use table::form;

// What stands on a cell. (That of `atoms` is what a text compares with: it keeps a letter's place, for a refusal.)
#[derive(Clone, Copy, Debug, PartialEq, Eq)]
pub enum Symbol {
    LeftMark,
    Letter(u8),
    RightMark,
}

const NO_MOVE: usize = form::NO_MOVE as usize;

// What stands on a cell; a cell past the right mark's is taken as that.
pub fn looked(word: &[u8], cell: usize) -> Symbol
    ensures { symbol_is result ≡ symbol_on word.now cell }
{
    match cell.checked_sub(1) {
        None => Symbol::LeftMark,
        Some(i) => match word.get(i) {
            Some(letter) => Symbol::Letter(*letter),
            None => Symbol::RightMark,
        },
    }
}

// Where a row's move leads from a cell.
pub fn moved(word: &[u8], code: u8, cell: usize) -> usize
    ensures { result ≡ moved word.now code cell }
{
    let end = word.len() + 1;
    match code {
        form::TO_LEFT => 0,
        form::TO_RIGHT => end,
        _ => (cell.min(end) + usize::from(code))
            .saturating_sub(NO_MOVE)
            .min(end),
    }
}
