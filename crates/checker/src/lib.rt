// The checker of images: whether bytes are the image of a table within its ranges.
#![tactic(auto)]

mod form;

ghost use Rattle.checker.specs.Check.{Answers};

use table::reason::{Reason, Refusal};

// Nothing to say of a well-formed image, else refusal 21 at place 0.
pub fn check(image: &[u8]) -> Result<(), Refusal>
    ensures { Answers image.now result }
{
    let malformed = Refusal {
        reason: Reason::Malformed,
        place: 0,
    };
    if form::well_formed(image) {
        Ok(())
    } else {
        Err(malformed)
    }
}
