// Whether an operator comes next at its level of a condition. The walker has to know it before it walks what stands before
// the operator, since a state may be taken first.
ghost use Rattle.std.specs.Prelude.{◌≡◌, ◌+◌, ◌^◌, ◌<◌};
ghost use Rattle.compiler.specs.Inside.Operators.{mark_of, look_at, is_or, Ahead};

use super::see::{Cursor, end_of};
use std::ops::ControlFlow;
use text::{Sign, Token};
use tokeniser::token_at;

// What joins two conditions.
#[derive(Clone, Copy, Debug, PartialEq, Eq)]
pub enum Operator {
    And,
    Or,
}

// What a sign says, with so many parentheses open: the answer, or to go on with so many open.
fn look(sign: Sign, depth: usize, operator: Operator) -> ControlFlow<bool, usize>
    requires { depth + 1 < 2 ^ 64 }
    ensures { result ≡ look_at (mark_of sign) depth (is_or operator) }
{
    match sign {
        Sign::OpenParen => ControlFlow::Continue(depth + 1),
        Sign::CloseParen => {
            if depth == 0 {
                ControlFlow::Break(false)
            } else {
                ControlFlow::Continue(depth - 1)
            }
        }
        Sign::Or => {
            if depth == 0 {
                ControlFlow::Break(operator == Operator::Or)
            } else {
                ControlFlow::Continue(depth)
            }
        }
        Sign::And => {
            if depth == 0 && operator == Operator::And {
                ControlFlow::Break(true)
            } else {
                ControlFlow::Continue(depth)
            }
        }
        _ => ControlFlow::Continue(depth),
    }
}

impl Cursor<'_> {
    // Whether this operator comes next, outside of parentheses that open behind this place.
    pub fn operator_ahead(self, operator: Operator) -> bool
        ensures { Ahead self.entry.text.now self.entry.at (is_or operator) result }
    {
        let mut at = self.at;
        let mut depth = 0;
        loop {
            let token = token_at(self.text, at);
            if let Token::Sign { sign, end, .. } = token {
                match look(sign, depth, operator) {
                    ControlFlow::Break(found) => return found,
                    ControlFlow::Continue(more) => {
                        depth = more;
                        at = end;
                    }
                }
            } else if let Some(end) = end_of(token) {
                at = end;
            } else {
                return false;
            }
        }
    }
}
