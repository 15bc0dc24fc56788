// The settings, which a program begins with: their letters go into the image first, then the header around them.
ghost use Rattle.std.specs.Prelude.{◌≡◌};
ghost use Rattle.compiler.specs.Inside.Setting.{Letters, Lists, AtTruth, Tells, Settings, Settles, Emittable, Begins};

use super::see::Cursor;
use super::write::{Image, header};
use reader::Counts;
use table::form;
use text::{Sign, Word};

// The letters behind the `[`, to where the image has them, and past the `]`; how many they are. (They are counted by hand: where they end is
// known only by reading them.)
fn letters(cursor: &mut Cursor<'_>, out: &mut [u8]) -> usize
    requires { Letters cursor.old out.old }
    ensures { Lists cursor.old cursor.new out.old out.new result }
{
    let mut count = 0;
    loop {
        out[count + form::LETTERS_PLACE] = cursor.letter();
        count += 1;
        let token = cursor.next();
        if !cursor.past_sign(token, Sign::Comma) {
            cursor.past(token);
            return count;
        }
    }
}

// Past `true ;` or `false ;`; which it is.
fn truth(cursor: &mut Cursor<'_>) -> bool
    requires { AtTruth cursor.old }
    ensures { Tells cursor.old cursor.new result }
{
    let told = cursor.word() == Word::True;
    cursor.skip(1);
    told
}

// How many letters there are, and `decr_on_zero`.
#[derive(Clone, Copy)]
struct Settled {
    count: usize,
    decr_on_zero: bool,
}

// The two settings, in either order.
fn emit_settings(cursor: &mut Cursor<'_>, out: &mut [u8]) -> Settled
    requires { Settings cursor.old out.old }
    ensures { Settles cursor.old cursor.new out.old out.new result }
{
    let token = cursor.next();
    if cursor.past_word(token, Word::Alphabet) {
        cursor.skip(2);
        let count = letters(cursor, out);
        cursor.skip(3);
        let decr_on_zero = truth(cursor);
        Settled {
            count,
            decr_on_zero,
        }
    } else {
        cursor.past(token);
        cursor.skip(1);
        let decr_on_zero = truth(cursor);
        cursor.skip(3);
        let count = letters(cursor, out);
        cursor.skip(1);
        Settled {
            count,
            decr_on_zero,
        }
    }
}

// Everything before the first statement: what the image has before its rows, and past the `{`.
pub fn begin<'o>(cursor: &mut Cursor<'_>, out: &'o mut [u8], counts: Counts) -> Image<'o>
    requires { Emittable cursor.old.text.now out.old counts.states counts.rows × (cursor.old.at ≡ 0) }
    ensures { Begins cursor.old cursor.new out.entry counts.states counts.rows result }
{
    let settled = emit_settings(cursor, out);
    header(out, settled.count, settled.decr_on_zero, counts);
    cursor.skip(5);
    Image {
        out,
        row: settled.count + form::ROWS_PLACE,
    }
}
