// The emitter: the image of a text that is known to be a program without faults.
ghost use Rattle.compiler.specs.Inside.Setting.{Emittable, Images};

use super::Emitter;
use super::see::Cursor;
use super::settings::begin;
use reader::Counts;

// The program has so many states and rows, as reading it told. The answer is the image's length.
pub fn emit(text: &[u8], out: &mut [u8], counts: Counts) -> usize
    requires { Emittable text.now out.old counts.states counts.rows }
    ensures { Images text.now out.old out.new counts.states counts.rows result }
{
    let mut cursor = Cursor { text, at: 0 };
    let mut image = begin(&mut cursor, out, counts);
    let mut emitter = Emitter {
        cursor,
        image: &mut image,
        state: 0,
        next: 1,
    };
    emitter.emit_statements();
    image.row
}
