// verdict IMAGE WORD LIMIT: judges a word with the table of an image file, and prints one line: `yes COUNT`, `no COUNT`,
// `limit met COUNT`, or `refused NUMBER PLACE` and what that means. What cannot be judged at all is said on standard error.
#![tactic(auto)]

ghost use Rattle.std.specs.Prelude.{◌≤◌, IfOk};

use std::env::Env;
use std::io;
use std::io::Write;

fn usage(rt: &HostRuntime) {
    let _ = rt.stderr().write_all(
        b"verdict: say the image file, the word (which may be empty) and the limit, 0 to 31\n",
    );
}

// Judges with an image that is in memory, or nothing where the limit is no number.
fn judge(rt: &HostRuntime, image: &[u8], word: &[u8], digits: &[u8]) -> Option<()> {
    let mut marks = [0u8; 65536];
    let mut line = [0u8; 105];
    let n = programs::judge_word(image, word, digits, &mut marks, &mut line)?;
    let name = b"verdict: standard output";
    let _ = files::show(rt, &mut rt.stdout(), &mut rt.stderr(), name, &line[..n]);
    Some(())
}

// Judges with the image in a file.
fn judge_file(rt: &HostRuntime, path: &[u8], word: &[u8], digits: &[u8]) -> Option<()> {
    // An image has at most 8,246 bytes, so a buffer that is full tells a longer file.
    let mut image = [0u8; 8247];
    match read(rt, path, &mut image) {
        Ok(n) => judge(rt, &image[..n], word, digits),
        Err(error) => {
            let _ = files::fail(rt, &mut rt.stderr(), path, error);
            Some(())
        }
    }
}

fn read(rt: &HostRuntime, path: &[u8], image: &mut [u8; 8247]) -> io::Result<usize>
    ensures { IfOk result (λ n. n ≤ 8247) }
{
    let mut file = files::open(rt, path)?;
    files::read_all(&mut file, image)
}

// Nothing where an argument is missing, too long for a name, or no number. (Each is read into a buffer: the library's list of all arguments
// needs a heap and makes texts of them.)
fn judged(rt: &HostRuntime) -> Option<()> {
    let mut path = [0u8; 4096];
    let path_len = rt.arg(1, &mut path).ok()?;
    let mut word = [0u8; 4096];
    let word_len = rt.arg(2, &mut word).ok()?;
    let mut digits = [0u8; 4096];
    let digits_len = rt.arg(3, &mut digits).ok()?;
    judge_file(
        rt,
        &path[..path_len],
        &word[..word_len],
        &digits[..digits_len],
    )
}

fn main(rt: HostRuntime) {
    if judged(&rt).is_none() {
        usage(&rt);
    }
}
