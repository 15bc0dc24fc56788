// The judge: what it refuses, and the verdict and the count on what it takes.
#![tactic(auto)]

mod pending;
mod search;

ghost use Rattle.std.specs.Prelude.{◌≡◌, ◌<◌};
ghost use Rattle.table.specs.Fields.{table_of};
ghost use Rattle.bits.specs.Tells.{Tells};
ghost use Rattle.judgement.specs.Judge.{Answers};
ghost use Rattle.judge.specs.Inside.Inner.{AcceptsIn, verdict_of};
ghost use Rattle.judge.specs.Inside.Methods.{ToDecide, HasDecided, HasRun};
ghost use Rattle.judge.specs.Inside.Search.{MarkedAccepts};

use judgement::answer::{Judged, Verdict};
use pending::{MARK_BYTES, first_set};
use search::Search;
use table::reason::{Reason, Refusal};
use table::source::Source;

// Whether a state accepts and a situation in it is marked.
fn accepts_in(image: &[u8], marks: &[u8; MARK_BYTES], state: usize) -> bool
    requires { state < 128 }
    ensures { Tells result (AcceptsIn (table_of image.now) marks.now state) }
{
    let at = state * 256;
    fields::accepts(image, state) && first_set(marks, at, at + 256).is_some()
}

// Whether a marked situation accepts.
fn accepted(image: &[u8], marks: &[u8; MARK_BYTES]) -> bool
    ensures { Tells result (MarkedAccepts (table_of image.now) marks.now) }
{
    for state in 0usize..128 {
        if accepts_in(image, marks, state) {
            return true;
        }
    }
    false
}

// The verdict: whether a run accepts, and else whether one met the limit.
#[tactic(auto, unfolding(crate::specs::Inside::Inner::verdict_of))]
fn verdict(yes: bool, over: bool) -> Verdict
    ensures { result ≡ verdict_of yes over }
{
    match (yes, over) {
        (true, _) => Verdict::Yes,
        (false, true) => Verdict::LimitMet,
        (false, false) => Verdict::No,
    }
}

// The verdict and the count that the marks show after a search.
fn shown(search: &Search, marks: &[u8; MARK_BYTES], over: bool) -> Judged
    requires { HasRun search.now marks.now over }
    ensures { HasDecided search.now marks.now result }
{
    let yes = accepted(search.image, marks);
    Judged {
        verdict: verdict(yes, over),
        count: ones::count_ones(&marks[..MARK_BYTES / 2]),
    }
}

// The verdict and the count on what is judged, by the rows of a source.
fn decide(search: &Search, marks: &mut [u8; MARK_BYTES]) -> Judged
    requires { ToDecide search.now }
    ensures { HasDecided search.now marks.new result }
{
    bits::clear(marks);
    let over = search.run(marks);
    shown(search, marks, over)
}

// Judges a word by a table's image, within a limit, and leaves what is reached in the marks.
pub fn judge(image: &[u8], word: &[u8], limit: u64, marks: &mut [u8]) -> Result<Judged, Refusal>
    ensures { Answers image.now word.now limit marks.old marks.new result }
{
    refusing::first_reason(image, word, limit)?;
    match marks.as_mut_array::<MARK_BYTES>() {
        None => Err(Refusal {
            reason: Reason::MarkBytes,
            place: 0,
        }),
        Some(marks) => {
            let search = Search {
                image,
                rows: image,
                source: Source::Image,
                word,
                limit: limit as usize,
            };
            Ok(decide(&search, marks))
        }
    }
}
