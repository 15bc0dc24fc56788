// The bytes of an image as they are written: the header, the rows one behind the other, a bit for each accepting state.
// What stands there already is read back from it: the letters.
ghost use Rattle.std.specs.Prelude.{◌+◌, ◌≤◌, ◌<◌, ◌≡◌, [], ◌∷◌, length};
ghost use Rattle.table.specs.Image.{two_bytes};
ghost use Rattle.table.specs.RowCode.{row_is};
ghost use Rattle.construction.specs.Compile.{image_room};
ghost use Rattle.construction.specs.Construction.{test_row, free, index_in};
ghost use Rattle.bits.specs.Inside.Over.{over};
ghost use Rattle.compiler.specs.Inside.Writing.{Held, Room, Adds, Marks, Heads, Indexes, HasLetters};

use reader::Counts;
use table::{Row, form};

// The two bytes of a number.
fn two_bytes(n: usize) -> [u8; 2]
    requires { n < 65536 }
    ensures { result ≡ two_bytes n }
{
    (n as u16).to_be_bytes()
}

// These bytes from this place on. `line` and `saving` have such a function too: one that crates share has no `requires`, and would have to
// say what it does where the bytes don't fit.
fn put(out: &mut [u8], at: usize, bytes: &[u8])
    requires { at + length bytes.now ≤ length out.old }
    ensures { out.new ≡ over out.old at bytes.now }
{
    let end = at + bytes.len();
    out[at..end].copy_from_slice(bytes);
}

const ACCEPTING: u8 = form::ACCEPTING_BYTES as u8;

// Everything before the rows but the letters, which stand already. No state accepts yet.
pub fn header(out: &mut [u8], count: usize, decr_on_zero: bool, counts: Counts)
    requires { (count ≤ 16) × (counts.states ≤ 128) × (counts.rows ≤ 1024) × (image_room ≤ length out.old) }
    ensures { Heads out.old out.new count decr_on_zero counts.states counts.rows }
{
    let [_, letters] = two_bytes(count);
    put(out, 0, &[1, 0, 1, form::FIRST_EDITION, 2, 0, letters]);
    let at = count + form::DECR_ON_ZERO_TAG;
    let [high, low] = two_bytes(counts.states);
    let flag = u8::from(decr_on_zero);
    put(
        out,
        at,
        &[3, 0, 1, flag, 4, 0, 2, high, low, 5, 0, ACCEPTING],
    );
    let accepting = count + form::ACCEPTING_PLACE;
    put(out, accepting, &[0; form::ACCEPTING_BYTES]);
    let [high, low] = two_bytes(form::ROW_BYTES * counts.rows);
    put(out, count + form::ROWS_TAG, &[6, high, low]);
}

// How many bytes stand before the first that is this one; all, where none is, as the definition has it.
fn find(bytes: &[u8], byte: u8) -> usize
    ensures index { result ≡ index_in bytes.now byte }
    ensures inside { result ≤ length bytes.now }
{
    bytes.iter().position(|b| *b == byte).unwrap_or(bytes.len())
}

// An image with its header, and the byte of it at which the next row is written. (That the header stands is `Held` in the contracts, of
// the methods that need it: others write before it does. That a row's states are at most 128 stands there too, since a row's two states
// come from the emitter one by one.)
#[derive(Drop)]
pub struct Image<'a> {
    pub out: &'a mut [u8],
    pub row: usize,
}

impl Image<'_> {
    // A row. The next one is written where it ends. (The way back, of any bytes, is `rows::row_here`.)
    pub fn add(&mut self, row: Row)
        requires { Room self.old.out.now self.old.row (λ _. row_is row ∷ []) × (row.from ≤ 128) × (row.to ≤ 128) }
        ensures { Adds self.old self.new (λ _. row_is row ∷ []) }
    {
        let [from_high, from_low] = two_bytes(row.from);
        let [to_high, to_low] = two_bytes(row.to);
        let bytes = [
            from_high, from_low, row.symbol, row.test, row.motion, row.change, to_high, to_low,
        ];
        put(self.out, self.row, &bytes);
        self.row += form::ROW_BYTES;
    }

    // A row that only tests.
    pub fn add_test(&mut self, from: usize, symbol: u8, test: u8, to: usize)
        requires { Room self.old.out.now self.old.row (λ _. test_row symbol test from to ∷ []) × (from ≤ 128) × (to ≤ 128) }
        ensures { Adds self.old self.new (λ _. test_row symbol test from to ∷ []) }
    {
        self.add(Row {
            from,
            symbol,
            test,
            motion: form::NO_MOVE,
            change: form::NO_CHANGE,
            to,
        });
    }

    // A row that is free.
    pub fn add_free(&mut self, from: usize, to: usize)
        requires { Room self.old.out.now self.old.row (λ _. free from to ∷ []) × (from ≤ 128) × (to ≤ 128) }
        ensures { Adds self.old self.new (λ _. free from to ∷ []) }
    {
        self.add_test(from, form::ANY_SYMBOL, form::EITHER_COUNTER, to);
    }

    // How many letters the image has. (`fields::letter_count` is of any bytes, and here the header stands.)
    pub fn letters(&self) -> usize
        requires { Held self.now.out.now }
        ensures { HasLetters self.now.out.now result }
    {
        self.out[form::COUNT_PLACE] as usize
    }

    // A letter's index among them.
    pub fn letter(&self, byte: u8) -> u8
        requires { Held self.now.out.now }
        ensures { Indexes self.now.out.now byte result }
    {
        let end = self.letters() + form::LETTERS_PLACE;
        find(&self.out[form::LETTERS_PLACE..end], byte) as u8
    }

    // A state's accept bit.
    pub fn accept(&mut self, state: usize)
        requires { Held self.old.out.now }
        ensures { Marks self.old self.new state }
    {
        let from = self.letters() + form::ACCEPTING_PLACE;
        let to = from + form::ACCEPTING_BYTES;
        bits::set_bit(&mut self.out[from..to], state);
    }
}
