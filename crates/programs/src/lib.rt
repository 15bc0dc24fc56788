// What the programs compile and verdict answer, from the bytes that they read to the line that they print. Each buffer has its
// length by its type, so that of the programs themselves only the system calls are left.
#![tactic(auto)]

mod compile;
mod digits;
mod verdict;

pub use compile::compile_text;
pub use digits::limit_said;
pub use verdict::judge_word;

// How many bytes of the image there are, if the text was compiled, and how many of the line.
#[derive(Clone, Copy, Debug, PartialEq, Eq)]
pub struct Answered {
    pub image: Option<usize>,
    pub line: usize,
}
