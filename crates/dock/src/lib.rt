// What the firmware links: the C entries of check and judge. `include/valaiyoth.h` declares them.
#![tactic(auto)]

ghost use Rattle.std.specs.Prelude.{◌≡◌, ◌+◌, ◌*◌, ◌<◌};
ghost use Rattle.table.specs.Refusal.{refusal, number_of};
ghost use Rattle.checker.specs.Check.{Checks};
ghost use Rattle.judgement.specs.Verdict.{verdict_number};
ghost use Rattle.judgement.specs.Judge.{Judges};

use judgement::answer::Judged;
use table::reason::Refusal;

// A verdict and its count as one number.
fn judged_number(judged: Judged) -> u64
    requires { judged.count < 1000000 }
    ensures { result ≡ verdict_number judged.verdict * 1000000 + judged.count }
{
    u64::from(judged.verdict.number()) * 1000000 + judged.count as u64
}

// A refusal as one number. (`office` makes its own: a function for both would be public, with no `requires`, and the sum of any place need
// not fit a number.)
fn refused_number(refused: Refusal) -> u64
    requires { refused.place < 1000000 }
    ensures { result ≡ refusal (number_of refused.reason) refused.place }
{
    u64::from(refused.reason.number()) * 1000000 + refused.place as u64
}

#[unsafe(no_mangle)]
pub extern "C" fn valaiyoth_check(image: &[u8]) -> u64
    ensures { Checks image.now result }
{
    match checker::check(image) {
        Ok(()) => 1,
        Err(refused) => refused_number(refused),
    }
}

#[unsafe(no_mangle)]
pub extern "C" fn valaiyoth_judge(image: &[u8], word: &[u8], limit: u64, marks: &mut [u8]) -> u64
    ensures { Judges image.now word.now limit marks.old marks.new result }
{
    match judge::judge(image, word, limit, marks) {
        Ok(judged) => judged_number(judged),
        Err(refused) => refused_number(refused),
    }
}
