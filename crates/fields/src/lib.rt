// What the fields of an image say, read where they stand.
// A reader takes any bytes for an image; a byte past the end counts as 0. (There is no struct of an image: the C interface lends bytes,
// and `specs/Fields.antt` of `table` speaks of bytes.)
#![tactic(auto)]

ghost use Rattle.std.specs.Prelude.{◌≡◌, ◌+◌, ◌*◌};
ghost use Rattle.bits.specs.Tells.{Tells};
ghost use Rattle.table.specs.Table.{Accepting};
ghost use Rattle.table.specs.Form.{rows_place, bytes_of};
ghost use Rattle.table.specs.Fields.{two_at, table_of, width_of, row_count, letters_of, letter_of};

use table::form;

// The number of two bytes. (Not by `u16::from_be_bytes`: with that a judge of a table with many rows takes 1.75 times as long.)
pub fn two(high: u8, low: u8) -> usize
    ensures { result ≡ high * 256 + low }
{
    (high as usize) * 256 + low as usize
}

// The two-byte number that starts here, high byte first.
pub fn two_at(image: &[u8], at: usize) -> usize
    ensures { result ≡ two_at image.now at }
{
    if at < image.len() {
        two(image[at], bits::byte_at(image, at + 1))
    } else {
        0
    }
}

// How many letters the alphabet has, as a byte: a place that is reckoned from it fits a number.
fn letters(image: &[u8]) -> u8
    ensures { result ≡ letters_of image.now }
{
    bits::byte_at(image, form::COUNT_PLACE)
}

// How many letters the alphabet has.
pub fn letter_count(image: &[u8]) -> usize
    ensures { result ≡ letters_of image.now }
{
    letters(image) as usize
}

// Letter c of the alphabet, or 0 past its end.
pub fn letter_at(image: &[u8], c: usize) -> u8
    ensures { result ≡ letter_of image.now c }
{
    if c < letters(image) as usize {
        bits::byte_at(image, c + form::LETTERS_PLACE)
    } else {
        0
    }
}

// Whether decr_on_zero is true: a lowering of the counter below zero leaves it at zero.
pub fn decr_on_zero(image: &[u8]) -> bool
    ensures { result ≡ (table_of image.now).decr_on_zero }
{
    bits::byte_at(image, letters(image) as usize + form::DECR_ON_ZERO_PLACE) == 1
}

// How many states there are.
pub fn state_count(image: &[u8]) -> usize
    ensures { result ≡ (table_of image.now).states }
{
    two_at(image, letters(image) as usize + form::STATES_PLACE)
}

// Whether state s accepts. (Not by `bits::bit_at`, whose place of a bit would count the bytes before the field eight times over.)
pub fn accepts(image: &[u8], s: usize) -> bool
    ensures { Tells result (Accepting (table_of image.now) s) }
{
    let at = letters(image) as usize + form::ACCEPTING_PLACE;
    let inside = s < 128;
    inside && (bits::byte_at(image, at + s / 8) >> (s % 8)) % 2 == 1
}

// Where the first row stands.
pub fn first_row(image: &[u8]) -> usize
    ensures { result ≡ rows_place (letters_of image.now) }
{
    letters(image) as usize + form::ROWS_PLACE
}

// How many rows there are.
pub fn row_count(image: &[u8]) -> usize
    ensures { result ≡ row_count image.now }
{
    two_at(image, letters(image) as usize + form::ROWS_LENGTH) / form::ROW_BYTES
}

// How many bytes they take.
pub fn rows_bytes(image: &[u8]) -> usize
    ensures { result ≡ bytes_of (width_of image.now) (row_count image.now) }
{
    row_count(image) * form::ROW_BYTES
}
