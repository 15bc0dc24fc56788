// The verdict program's line.
ghost use Rattle.std.specs.Prelude.{◌+◌, ◌≤◌, ◌≡◌, ◌++◌, length};
ghost use Rattle.bits.specs.Byte.{spelling};
ghost use Rattle.judgement.specs.Judge.{judged as Judge·judged};
ghost use Rattle.judgement.specs.Judge.{refused as Judge·refused};
ghost use Rattle.judgement.specs.Judge.{answer_of as Judge·answer_of};
ghost use Rattle.line.specs.VerdictLine.{meaning as VerdictLine·meaning};
ghost use Rattle.line.specs.VerdictLine.{verdict_line, verdict_word, answer_of};
ghost use Rattle.line.specs.Standing.{Stands};

use crate::parts::{add, number};
use judgement::answer::{Judged, Verdict};
use table::reason::Refusal;

// What a refusal's number means, and the line's end. By the number, as `verdict_line` has it.
fn meaning(refusal: usize) -> &'static [u8]
    ensures is { result.now ≡ VerdictLine·meaning refusal ++ spelling "\n" }
    ensures short { length result.now ≤ 55 }
{
    match refusal {
        21 => b"the file is not the image of a table\n",
        22 => b"the word has more than 62 letters\n",
        23 => b"the word's letter at this place is not in the alphabet\n",
        24 => b"the limit is above 31\n",
        _ => b"the mark buffer has another length\n",
    }
}

// A verdict's word, and the blank behind it.
fn word_of(verdict: Verdict) -> &'static [u8]
    ensures is { result.now ≡ verdict_word verdict ++ spelling " " }
    ensures short { length result.now ≤ 10 }
{
    match verdict {
        Verdict::Yes => b"yes ",
        Verdict::No => b"no ",
        Verdict::LimitMet => b"limit met ",
    }
}

fn judged(out: &mut [u8], verdict: Verdict, count: usize) -> usize
    requires { 105 ≤ length out.old }
    ensures { Stands out.old out.new result (verdict_line (Judge·judged verdict count)) }
{
    let start = add(out, 0, word_of(verdict));
    number(out, start, count, b'\n')
}

fn refused(out: &mut [u8], refusal: usize, place: usize) -> usize
    requires { 105 ≤ length out.old }
    ensures { Stands out.old out.new result (verdict_line (Judge·refused refusal place)) }
{
    let start = add(out, 0, b"refused ");
    let first = number(out, start, refusal, b' ');
    let second = number(out, first, place, b' ');
    add(out, second, meaning(refusal))
}

// Writes the line of a judge's answer, and answers the line's length.
pub fn answer_line(answer: Result<Judged, Refusal>, out: &mut [u8; 105]) -> usize
    ensures { Stands out.old out.new result (verdict_line (Judge·answer_of answer)) }
{
    match answer {
        Ok(answer) => judged(out, answer.verdict, answer.count),
        Err(refusal) => refused(out, usize::from(refusal.reason.number()), refusal.place),
    }
}

// The same of the answer that a number stands for, as C has it. It takes every number, since its promise
// (docs/PROMISES.md) speaks of every one.
pub fn verdict_line(answer: u64, out: &mut [u8; 105]) -> usize
    ensures { Stands out.old out.new result (verdict_line (answer_of answer)) }
{
    let kind = (answer / 1000000) as usize;
    let value = (answer % 1000000) as usize;
    match kind {
        1 => judged(out, Verdict::Yes, value),
        2 => judged(out, Verdict::No, value),
        3 => judged(out, Verdict::LimitMet, value),
        _ => refused(out, kind, value),
    }
}
