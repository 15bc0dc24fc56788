// What a judge answers with, where it does not refuse: a verdict and a count. `specs/Judge.antt` says when an answer is right.
ghost use Rattle.std.specs.Prelude.{◌≡◌};
ghost use Rattle.judgement.specs.Verdict.{verdict_number};

// Yes: some run within the limit accepts. Limit met: none does, but some comes to a step that would pass it. No: neither.
#[derive(Clone, Copy, Debug, PartialEq, Eq)]
pub enum Verdict {
    Yes,
    No,
    LimitMet,
}

impl Verdict {
    // Document 01's number of the verdict.
    #[tactic(auto, unfolding(crate::specs::Verdict::verdict_number))]
    pub fn number(self) -> u8
        ensures { result ≡ verdict_number self }
    {
        match self {
            Verdict::Yes => 1,
            Verdict::No => 2,
            Verdict::LimitMet => 3,
        }
    }
}

// A verdict, and how many situations are reached within the limit.
#[derive(Clone, Copy, Debug, PartialEq, Eq)]
pub struct Judged {
    pub verdict: Verdict,
    pub count: usize,
}
