// The form of an image: the same names as in `specs/Form.antt`, for code that reads or writes one.

// The codes in a row: its symbol past the letters, its test of the counter, its move and its change.
pub const LEFT_MARK: u8 = 16;

pub const RIGHT_MARK: u8 = 17;

pub const ANY_SYMBOL: u8 = 18;

pub const ZERO_COUNTER: u8 = 0;

pub const ABOVE_ZERO: u8 = 1;

pub const EITHER_COUNTER: u8 = 2;

pub const TO_LEFT: u8 = 0;

pub const NO_MOVE: u8 = 64;

pub const TO_RIGHT: u8 = 128;

pub const NO_CHANGE: u8 = 31;

pub const MOST_CHANGE: u8 = 62;

// The edition of an image whose rows take eight bytes.
pub const FIRST_EDITION: u8 = 1;

pub const ROW_BYTES: usize = 8;

// Where the fields stand: of each the tag, and the place of its value. Those behind the alphabet stand so far behind its letters.
pub const EDITION_PLACE: usize = 3;

pub const ALPHABET_TAG: usize = 4;

pub const COUNT_PLACE: usize = 6;

pub const LETTERS_PLACE: usize = 7;

pub const DECR_ON_ZERO_TAG: usize = 7;

pub const DECR_ON_ZERO_PLACE: usize = 10;

pub const STATES_TAG: usize = 11;

pub const STATES_PLACE: usize = 14;

pub const ACCEPTING_TAG: usize = 16;

pub const ACCEPTING_PLACE: usize = 19;

pub const ACCEPTING_BYTES: usize = 16;

pub const ROWS_TAG: usize = 35;

pub const ROWS_LENGTH: usize = 36;

pub const ROWS_PLACE: usize = 38;
