// The compile program's line.
ghost use Rattle.std.specs.Prelude.{ℕ, ◌≤◌, ◌≡◌, length, Ok};
ghost use Rattle.table.specs.Refusal.{number_of};
ghost use Rattle.line.specs.CompileLine.{compile_line, line_of, refusal_line};
ghost use Rattle.line.specs.Standing.{Stands};

use crate::parts::{add, number};
use construction::Sizes;
use table::reason::Refusal;

// What the line of a refusal says: its number and its place.
pub trait Refused: Drop {
    ghost number: { Self → ℕ };

    ghost place: { Self → ℕ };

    fn number(&self) -> usize
        ensures { result ≡ number self.now };

    fn place(&self) -> usize
        ensures { result ≡ place self.now };
}

// A reason's number is document 01's.
impl Refused for Refusal {
    ghost number = { λ r. number_of r.reason };

    ghost place = { λ r. r.place };

    fn number(&self) -> usize {
        usize::from(self.reason.number())
    }

    fn place(&self) -> usize {
        self.place
    }
}

// A refusal by its number, also one that no reason has, and its place.
#[derive(Clone, Copy, Debug, PartialEq, Eq)]
pub struct Numbered {
    pub number: usize,
    pub place: usize,
}

impl Refused for Numbered {
    ghost number = { λ r. r.number };

    ghost place = { λ r. r.place };

    fn number(&self) -> usize {
        self.number
    }

    fn place(&self) -> usize {
        self.place
    }
}

fn compiled(out: &mut [u8], sizes: Sizes) -> usize
    requires { 66 ≤ length out.old }
    ensures { Stands out.old out.new result (compile_line (Ok sizes)) }
{
    let start = add(out, 0, b"ok ");
    let first = number(out, start, sizes.states, b' ');
    let second = number(out, first, sizes.rows, b' ');
    number(out, second, sizes.bytes, b'\n')
}

// Writes the line of a refusal's number and place, of whatever number, and answers the line's length.
pub fn refusal_line(refusal: usize, place: usize, out: &mut [u8; 66]) -> usize
    ensures { Stands out.old out.new result (refusal_line refusal place) }
{
    let start = add(out, 0, b"no ");
    let first = number(out, start, refusal, b' ');
    number(out, first, place, b'\n')
}

// Writes the line of an answer, and answers the line's length. The refusal may have any number: `Refusal` has its reason's, `Numbered`
// its own.
#[tactic(auto, unfolding(crate::specs::CompileLine::line_of, crate::specs::CompileLine::compile_line))]
pub fn compile_line<E: Refused>(answer: Result<Sizes, E>, out: &mut [u8; 66]) -> usize
    ensures { Stands out.old out.new result (line_of E.number E.place answer) }
{
    match answer {
        Ok(sizes) => compiled(out, sizes),
        Err(refusal) => refusal_line(refusal.number(), refusal.place(), out),
    }
}
