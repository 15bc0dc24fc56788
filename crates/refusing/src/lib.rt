// Why an image, a word and a limit are refused, 21 to 24: what every entry that judges asks first.
#![tactic(auto)]

ghost use mathlib.Core.List.{Memᴰ};
ghost use Rattle.std.specs.Prelude.{◌≡◌, length};
ghost use Rattle.table.specs.Fields.{letters_of, table_of};
ghost use Rattle.bits.specs.Tells.{Tells};
ghost use Rattle.refusing.specs.Asking.{Asks};
ghost use Rattle.refusing.specs.Inside.Letters.{FirstOther};

use table::reason::{Reason, Refusal};

// Whether a byte is a letter of the alphabet.
fn in_alphabet(image: &[u8], b: u8) -> bool
    requires { length (table_of image.now).alphabet ≡ letters_of image.now }
    ensures { Tells result (Memᴰ b (table_of image.now).alphabet) }
{
    for c in 0..fields::letter_count(image) {
        if fields::letter_at(image, c) == b {
            return true;
        }
    }
    false
}

// The index of the first byte of the word that is no letter.
fn outside(image: &[u8], word: &[u8]) -> Option<usize>
    requires { length (table_of image.now).alphabet ≡ letters_of image.now }
    ensures { FirstOther image.now word.now result }
{
    word.iter().position(|b| !in_alphabet(image, *b))
}

// The first reason to refuse, in number order, or that there is none.
pub fn first_reason(image: &[u8], word: &[u8], limit: u64) -> Result<(), Refusal>
    ensures { Asks image.now word.now limit result }
{
    checker::check(image)?;
    let long = 62 < word.len();
    if long {
        return Err(Refusal {
            reason: Reason::LongWord,
            place: 0,
        });
    }
    if let Some(place) = outside(image, word) {
        return Err(Refusal {
            reason: Reason::OtherLetter,
            place,
        });
    }
    if 31 < limit {
        return Err(Refusal {
            reason: Reason::HighLimit,
            place: 0,
        });
    }
    Ok(())
}
