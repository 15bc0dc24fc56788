// Where a run of bytes ends that goes on from a place: the bytes of a word, of a number, of a comment.
ghost use Rattle.std.specs.Prelude.{◌≤◌, length};
ghost use Rattle.tokeniser.specs.Inside.Tokenising.{Answers, Run};

// Where the bytes end, from a place on, that pass a test; or the text's end.
pub fn end_of<F: Fn(u8) -> bool>(text: &[u8], from: usize, goes_on: F) -> usize
    requires callable { F.IsAlwaysCallable goes_on }
    requires inside { from ≤ length text.now }
    ensures { (test : _) → Answers (F.post goes_on) test → Run test text.now from result }
{
    for i in from..text.len() {
        if !goes_on(text[i]) {
            return i;
        }
    }
    text.len()
}
