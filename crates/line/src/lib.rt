// The lines that the programs compile and verdict print, each into a buffer that holds the longest. The promise fixes
// every byte of the buffer, of which the library's `Write` for lent bytes says nothing; so the parts are put there by hand.
#![tactic(auto)]

mod compile;
mod parts;
mod verdict;

pub use compile::{Numbered, Refused, compile_line, refusal_line};
pub use verdict::{answer_line, verdict_line};
