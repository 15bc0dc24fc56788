// The search: from the start on, the rows of one pending situation after the other are followed, until none is pending. It goes over the
// rows that a source shows for a situation's state, and knows of the source only that.
ghost use Rattle.std.specs.Prelude.{◌≡◌, ◌&&◌};
ghost use Rattle.table.specs.Fields.{table_of};
ghost use Rattle.cells.specs.Code.{symbol_is};
ghost use Rattle.machine.specs.Step.{symbol_fits, counter_fits};
ghost use Rattle.judge.specs.Inside.Methods.{ToVisit, ToFollow, Visited, ToExpand, HasExpanded, ToRun, HasRun};

use super::pending::{Hints, MARK_BYTES, SITUATIONS};
use cells::Symbol;
use machine::Outcome;
use rows::rows_of;
use table::source::{Range, Source};

// Whether a row's symbol and test fit what is seen and a counter.
fn suits(image: &[u8], symbol: u8, test: u8, seen: Symbol, counter: usize) -> bool
    ensures { result ≡ (symbol_fits (table_of image.now).alphabet symbol (symbol_is seen) && counter_fits test counter) }
{
    machine::counter_fits(test, counter) && machine::symbol_fits(image, symbol, seen)
}

// Row j of those that a range shows for situation i: it stands at this place, and in the situation this is seen.
// `range` and `j` are there for the contracts: they say which row of the source it is.
#[derive(Clone, Copy)]
struct Shown {
    i: usize,
    seen: Symbol,
    range: Range,
    j: usize,
    at: usize,
}

// The marks, the hints and whether the limit was met go beside it, since they change and it does not.
// What is searched: a table by its image, by the rows of a source, with a word and a limit. (That these can be searched stands in the
// contracts: as ghost fields of this struct it was tried, and refused, since `Ready` and `Sources` are more than propositions.)
#[derive(Clone, Copy)]
pub struct Search<'a> {
    pub image: &'a [u8],
    pub rows: &'a [u8],
    pub source: Source,
    pub word: &'a [u8],
    pub limit: usize,
}

impl Search<'_> {
    // Follows a row that leaves the state of its situation, if it fits what is seen there: what it leads to within the limit is marked.
    // The answer is whether a step above the limit was met, now or before.
    fn follow(
        &self,
        shown: Shown,
        over: bool,
        marks: &mut [u8; MARK_BYTES],
        hints: &mut Hints,
    ) -> bool
        requires { ToFollow self.now marks.old over shown }
        ensures { Visited self.now marks.old marks.new result shown }
    {
        let i = shown.i;
        let row = rows::row_here(self.rows, shown.at);
        if !suits(self.image, row.symbol, row.test, shown.seen, i % 32) {
            return over;
        }
        let to = row.to;
        match machine::step(self.image, self.word, row, i / 32 % 64, i % 32, self.limit) {
            Outcome::Goes { cell, counter } => {
                hints.mark((to * 64 + cell) * 32 + counter, marks);
                over
            }
            Outcome::Blocked => over,
            Outcome::OverLimit => true,
        }
    }

    // Follows a row that is shown for a situation, if it leaves its state: of an image most rows do not.
    fn visit(
        &self,
        shown: Shown,
        over: bool,
        marks: &mut [u8; MARK_BYTES],
        hints: &mut Hints,
    ) -> bool
        requires { ToVisit self.now marks.old over shown }
        ensures { Visited self.now marks.old marks.new result shown }
    {
        if rows::leaves(self.rows, shown.at, shown.i / 32 / 64) {
            return self.follow(shown, over, marks, hints);
        }
        over
    }

    // Follows every row that a source shows for situation i, which is pending.
    fn expand(&self, i: usize, over: bool, marks: &mut [u8; MARK_BYTES], hints: &mut Hints) -> bool
        requires { ToExpand self.now marks.old over i }
        ensures { HasExpanded self.now marks.old marks.new result i }
    {
        bits::clear_bit(marks, i + SITUATIONS);
        let range = rows_of(self.source, self.rows, i / 32 / 64);
        let seen = cells::head::seen(self.word, i / 32 % 64);
        let mut at = range.first;
        let mut past = over;
        // From one place to the next by a sum: a product of two numbers that are not known is harder to prove within the bytes.
        for j in 0..range.many {
            let shown = Shown {
                i,
                seen,
                range,
                j,
                at,
            };
            past = self.visit(shown, past, marks, hints);
            at += range.apart;
        }
        past
    }

    // Marks all that is reached. The answer is whether a step above the limit was met.
    pub fn run(&self, marks: &mut [u8; MARK_BYTES]) -> bool
        requires { ToRun self.now marks.old }
        ensures { HasRun self.now marks.new result }
    {
        let mut hints = Hints::none();
        hints.mark(0, marks);
        let mut over = false;
        while let Some(i) = hints.pick(marks) {
            over = self.expand(i, over, marks, &mut hints);
        }
        over
    }
}
