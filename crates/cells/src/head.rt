// A head: the word together with the cell it stands on. A row's step calls `seen` and `goes`, whose parameters are plain: a head stands
// only inside them. Document 01 asks for both.
ghost use Rattle.std.specs.Prelude.{◌≡◌};
ghost use Rattle.cells.specs.Cell.{last, symbol_on, moved};
ghost use Rattle.cells.specs.Code.{symbol_is};
ghost use Rattle.cells.specs.Head.{Moves};

use crate::Symbol;
use table::form;

// A word and a cell of it.
#[derive(Clone, Copy)]
pub struct Head<'a> {
    pub word: &'a [u8],
    pub cell: usize,
}

impl<'a> Head<'a> {
    // A head on a cell of a word.
    pub fn on(word: &'a [u8], cell: usize) -> Self
        ensures { (result.word ≡ word.entry) × (result.cell ≡ cell) }
    {
        Head { word, cell }
    }

    // What stands on the head's cell.
    pub fn symbol(self) -> Symbol
        ensures { symbol_is result ≡ symbol_on self.entry.word.now self.entry.cell }
    {
        crate::looked(self.word, self.cell)
    }

    // The head moved by a row's move code.
    pub fn by(self, code: u8) -> Self
        ensures { Moves code self.entry result }
    {
        Head {
            cell: crate::moved(self.word, code, self.cell),
            ..self
        }
    }

    // The head on the left mark.
    pub fn to_left(self) -> Self
        ensures { (result.word ≡ self.entry.word) × (result.cell ≡ 0) }
    {
        self.by(form::TO_LEFT)
    }

    // The head on the right mark.
    pub fn to_right(self) -> Self
        ensures { (result.word ≡ self.entry.word) × (result.cell ≡ last self.entry.word.now) }
    {
        self.by(form::TO_RIGHT)
    }
}

// What stands on a cell of a word, by way of a head.
pub fn seen(word: &[u8], cell: usize) -> Symbol
    ensures { symbol_is result ≡ symbol_on word.now cell }
{
    Head::on(word, cell).symbol()
}

// Where a row's move leads from a cell of a word, by way of a head.
pub fn goes(word: &[u8], code: u8, cell: usize) -> usize
    ensures { result ≡ moved word.now code cell }
{
    Head::on(word, cell).by(code).cell
}
