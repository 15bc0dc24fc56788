// From a rule's text to a table's image. Readers go over the text first and find whatever is wrong with it; the emitter goes
// over a text that is known to be a program without faults and writes the image of its table, and never refuses.
#![tactic(auto)]

mod ahead;
mod blocks;
mod emit;
mod plain;
mod see;
mod settings;
mod walk;
mod write;

ghost use Rattle.construction.specs.Compile.{Compiles};

use construction::Sizes;
use see::Cursor;
use table::reason::{Reason, Refusal};
use write::Image;

// The emitter goes over a text and writes an image. It stands at the state that the next statement starts at, with the next
// state to be taken.
#[derive(Drop)]
struct Emitter<'a, 'o> {
    cursor: Cursor<'a>,
    image: &'a mut Image<'o>,
    state: usize,
    next: usize,
}

// Nothing is written before the text is read to its end, so a refusal leaves every byte as it was.
pub fn compile(text: &[u8], image: &mut [u8]) -> Result<Sizes, Refusal>
    ensures { Compiles text.now image.old image.new result }
{
    if text.len() > 4096 {
        return Err(Refusal {
            reason: Reason::LongText,
            place: 0,
        });
    }
    if image.len() < 8246 {
        return Err(Refusal {
            reason: Reason::ShortImage,
            place: 0,
        });
    }
    let counts = reader::read(text)?;
    let bytes = emit::emit(text, image, counts);
    Ok(Sizes {
        bytes,
        states: counts.states,
        rows: counts.rows,
    })
}
