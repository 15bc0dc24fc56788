// The rows of an image, read where they stand, and where a source shows those that leave a state.
// A reader takes any bytes for rows; a byte past the end counts as 0. (`rows, at` are no struct: the readers are public as they are, in
// docs/PROMISES.md.)
#![tactic(auto)]

ghost use Rattle.std.specs.Prelude.{◌≡◌, ◌+◌, ◌*◌, ◌≤◌, length, eqb};
ghost use Rattle.table.specs.Table.{Row};
ghost use Rattle.table.specs.Form.{wide};
ghost use Rattle.table.specs.Fields.{row_from, row_of, width_of};
ghost use Rattle.table.specs.RowCode.{row_is};
ghost use Rattle.table.specs.Source.{range_of};

use fields::{first_row, row_count, two, two_at};
use table::source::{Range, Source};
use table::{Row, form};

// How many bytes a row takes: eight in the one edition that there is.
fn row_bytes(image: &[u8]) -> usize
    ensures { result ≡ wide (width_of image.now) }
{
    form::ROW_BYTES
}

// A place where what stands for row i is read: where the row stands, or the end for a row past it, whose place need not fit a number.
fn row_place(image: &[u8], i: usize) -> usize
    ensures { row_from image.now result ≡ row_of image.now i }
{
    if i < image.len() / form::ROW_BYTES {
        first_row(image) + i * form::ROW_BYTES
    } else {
        image.len()
    }
}

// Whether the row whose bytes start here leaves a state. A search asks this of every row that it is shown, so it reads no more than that,
// and makes the test that `row_here` makes too. (With `two_at` alone a judge of a table with many rows took 2.9 times a plain one in C,
// and takes 1.1 times with this.)
pub fn leaves(rows: &[u8], at: usize, state: usize) -> bool
    ensures { result ≡ eqb (row_from rows.now at).from state }
{
    if at < rows.len().saturating_sub(7) {
        two(rows[at], rows[at + 1]) == state
    } else {
        two_at(rows, at) == state
    }
}

// The row whose bytes start here, where they all stand. (It and `cut_row` are not one function over `first_chunk`: a judge of a table
// with many rows took 2.0 to 2.9 times a plain one in C with that, and takes 1.1 times with this.)
fn whole_row(rows: &[u8], at: usize) -> Row
    requires { at + 8 ≤ length rows.now }
    ensures { row_is result ≡ row_from rows.now at }
{
    Row {
        from: two(rows[at], rows[at + 1]),
        symbol: rows[at + 2],
        test: rows[at + 3],
        motion: rows[at + 4],
        change: rows[at + 5],
        to: two(rows[at + 6], rows[at + 7]),
    }
}

// A place where a row is read of which some bytes may be past the end: where it starts, or the end if that is past it, since a place
// behind that need not fit a number.
fn place_of(rows: &[u8], at: usize) -> usize
    ensures { (result ≤ length rows.now) × (row_from rows.now result ≡ row_from rows.now at) }
{
    at.min(rows.len())
}

// The row whose bytes start here, where some may be past the end: those are 0.
fn cut_row(rows: &[u8], at: usize) -> Row
    ensures { row_is result ≡ row_from rows.now at }
{
    let place = place_of(rows, at);
    Row {
        from: two_at(rows, place),
        symbol: bits::byte_at(rows, place + 2),
        test: bits::byte_at(rows, place + 3),
        motion: bits::byte_at(rows, place + 4),
        change: bits::byte_at(rows, place + 5),
        to: two_at(rows, place + 6),
    }
}

// The row whose bytes start here.
pub fn row_here(rows: &[u8], at: usize) -> Row
    ensures { row_is result ≡ row_from rows.now at }
{
    if at < rows.len().saturating_sub(7) {
        whole_row(rows, at)
    } else {
        cut_row(rows, at)
    }
}

// Row i.
pub fn row_at(image: &[u8], i: usize) -> Row
    ensures { row_is result ≡ row_of image.now i }
{
    cut_row(image, row_place(image, i))
}

// Where the rows that leave a state are shown.
pub fn rows_of(source: Source, rows: &[u8], state: usize) -> Range
    ensures { result ≡ range_of source rows.now state }
{
    match source {
        Source::Image => Range {
            first: first_row(rows),
            many: row_count(rows),
            apart: row_bytes(rows),
        },
    }
}
