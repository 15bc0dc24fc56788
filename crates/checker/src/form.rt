// Whether bytes are a well-formed image: a question for each part of it.
ghost use Rattle.std.specs.Prelude.{◌≡◌, ℕ, ◌+◌, ◌^◌, ◌≤◌, ◌<◌, length};
ghost use Rattle.bits.specs.Bit.{bit};
ghost use Rattle.table.specs.Form.{letters_place, either_counter, to_right, most_change};
ghost use Rattle.table.specs.Table.{Accepting};
ghost use Rattle.table.specs.Fields.{letters_of, letter_of, row_of, row_count, table_of};
ghost use Rattle.bits.specs.Tells.{Tells};
ghost use Rattle.table.specs.Inside.Right.{FieldAt, HeadRight, MiddleRight, TailRight, LetterRight};
ghost use Rattle.table.specs.WellFormed.{SymbolCode, RowInRange, WellFormed};

use fields::{accepts, letter_at, letter_count, row_count, rows_bytes, state_count, two_at};
use rows::row_at;
use table::{Row, form};

// Whether a field with this tag and this length starts here.
fn field_at(image: &[u8], at: usize, tag: u8, many: usize) -> bool
    requires { at + 1 < 2 ^ 64 }
    ensures { Tells result (FieldAt image.now at tag many) }
{
    bits::byte_at(image, at) == tag && two_at(image, at + 1) == many
}

// Tags 1 and 2: edition 1, and 1 to 16 letters.
fn head_right(image: &[u8]) -> bool
    ensures { Tells result (HeadRight image.now) }
{
    let k = letter_count(image);
    field_at(image, 0, 1, 1)
        && bits::byte_at(image, form::EDITION_PLACE) == form::FIRST_EDITION
        && field_at(image, form::ALPHABET_TAG, 2, k)
        && 1 <= k
        && k <= 16
}

// Tags 3 and 4: 0 or 1, and 1 to 128 states.
#[tactic(auto, unfolding(table::specs::Fields::table_of))]
fn middle_right(image: &[u8]) -> bool
    requires { letters_of image.now ≤ 16 }
    ensures { Tells result (MiddleRight image.now) }
{
    let k = letter_count(image);
    let states = state_count(image);
    field_at(image, k + form::DECR_ON_ZERO_TAG, 3, 1)
        && bits::byte_at(image, k + form::DECR_ON_ZERO_PLACE) <= 1
        && field_at(image, k + form::STATES_TAG, 4, 2)
        && 1 <= states
        && states <= 128
}

// Tags 5 and 6: 16 bytes, then at most 1,024 whole rows, and nothing after them.
#[tactic(auto, using(crate::proofs::Framing::tail_end, crate::proofs::Framing::end_tail, crate::proofs::Framing::end_low))]
fn tail_right(image: &[u8]) -> bool
    requires { letters_of image.now ≤ 16 }
    ensures { Tells result (TailRight image.now) }
{
    let k = letter_count(image);
    let rows = row_count(image);
    let many = rows_bytes(image);
    rows <= 1024
        && field_at(image, k + form::ACCEPTING_TAG, 5, form::ACCEPTING_BYTES)
        && field_at(image, k + form::ROWS_TAG, 6, many)
        && image.len() == k + form::ROWS_PLACE + many
}

// Whether letter c differs from each before it.
fn fresh(image: &[u8], c: usize) -> bool
    ensures { Tells result ((d : ℕ) → d < c → letter_of image.now d ≡ letter_of image.now c → ⊥) }
{
    let letter = letter_at(image, c);
    for d in 0..c {
        if letter_at(image, d) == letter {
            return false;
        }
    }
    true
}

// Whether letter c is a letter, and a new one.
fn letter_right(image: &[u8], c: usize) -> bool
    ensures { Tells result (LetterRight image.now c) }
{
    bits::is_letter(letter_at(image, c)) && fresh(image, c)
}

// Whether all letters are different letters.
fn letters_right(image: &[u8]) -> bool
    ensures { Tells result ((c : ℕ) → c < letters_of image.now → LetterRight image.now c) }
{
    (0..letter_count(image)).all(|c| letter_right(image, c))
}

// Whether no state that does not exist accepts.
fn no_other_bit(image: &[u8]) -> bool
    ensures { Tells result ((s : ℕ) → (table_of image.now).states ≤ s → bit (table_of image.now).accepting s ≡ 0) }
{
    for s in state_count(image)..128 {
        if accepts(image, s) {
            return false;
        }
    }
    true
}

// Whether a row's symbol is one of k letters, a mark or any.
fn symbol_right(symbol: u8, k: usize) -> bool
    ensures { Tells result (SymbolCode k symbol) }
{
    (symbol as usize) < k || form::LEFT_MARK <= symbol && symbol <= form::ANY_SYMBOL
}

// Whether a row's codes are in their ranges, with k letters.
fn codes_right(row: Row, k: usize) -> bool
    ensures { Tells result (SymbolCode k row.symbol × (row.test ≤ either_counter) × (row.motion ≤ to_right) × (row.change ≤ most_change)) }
{
    symbol_right(row.symbol, k)
        && row.test <= form::EITHER_COUNTER
        && row.motion <= form::TO_RIGHT
        && row.change <= form::MOST_CHANGE
}

// Whether a row may lead from one state to another: both exist, and the first does not accept.
fn states_right(image: &[u8], from: usize, to: usize) -> bool
    ensures { Tells result ((from < (table_of image.now).states) × (Accepting (table_of image.now) from → ⊥) × (to < (table_of image.now).states)) }
{
    let states = state_count(image);
    from < states && !accepts(image, from) && to < states
}

// Whether row i is in range. (A letter of the alphabet is one that the image is long enough for.)
fn row_right(image: &[u8], i: usize) -> bool
    requires { letters_of image.now + letters_place ≤ length image.now }
    ensures { Tells result (RowInRange (table_of image.now) (row_of image.now i)) }
{
    let row = row_at(image, i);
    states_right(image, row.from, row.to) && codes_right(row, letter_count(image))
}

// Whether every row is in range.
fn rows_right(image: &[u8]) -> bool
    requires { letters_of image.now + letters_place ≤ length image.now }
    ensures { Tells result ((i : ℕ) → i < row_count image.now → RowInRange (table_of image.now) (row_of image.now i)) }
{
    for i in 0..row_count(image) {
        if !row_right(image, i) {
            return false;
        }
    }
    true
}

// Whether the bytes are a well-formed image.
pub fn well_formed(image: &[u8]) -> bool
    ensures { Tells result (WellFormed image.now) }
{
    head_right(image)
        && middle_right(image)
        && tail_right(image)
        && letters_right(image)
        && no_other_bit(image)
        && rows_right(image)
}
