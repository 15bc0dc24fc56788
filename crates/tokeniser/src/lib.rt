// The tokens of a text, one at a time: whoever reads a text asks for what comes first from a byte on, and goes on where that ends.
#![tactic(auto)]

ghost use Rattle.text.specs.First.{FirstToken};

mod ends; // where a run of bytes ends
mod kinds; // the kind of a byte
mod signs; // the signs
mod steps; // what stands at a byte
mod words; // the reserved words

use std::ops::ControlFlow;
use steps::step_at;
use text::Token;

// What comes first from a byte on, past white space and comments.
pub fn token_at(text: &[u8], from: usize) -> Token
    ensures { FirstToken text.now from result }
{
    let mut at = from;
    while at < text.len() {
        match step_at(text, at) {
            ControlFlow::Continue(next) => at = next,
            ControlFlow::Break(token) => return token,
        }
    }
    Token::End { at }
}
