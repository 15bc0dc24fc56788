// Why an entry refuses, and where. `specs/Refusal.antt` has document 01's number of each reason.
ghost use Rattle.std.specs.Prelude.{◌≡◌};
ghost use Rattle.table.specs.Refusal.{number_of};

// The reasons, in the order of their numbers: 1 to 11 are those of the compiler, 21 to 25 those of the checker and the judge.
#[derive(Clone, Copy, Debug, PartialEq, Eq)]
pub enum Reason {
    LongText,
    ShortImage,
    NoToken,
    Misplaced,
    Alphabet,
    OutsideAlphabet,
    Number,
    Depth,
    Arms,
    States,
    Rows,
    Malformed,
    LongWord,
    OtherLetter,
    HighLimit,
    MarkBytes,
}

impl Reason {
    // Document 01's number of the reason. By a match and not as the enum's own numbers, of which no two can be equal: so no edit could
    // show a wrong one.
    pub fn number(self) -> u8
        ensures { result ≡ number_of self }
    {
        match self {
            Reason::LongText => 1,
            Reason::ShortImage => 2,
            Reason::NoToken => 3,
            Reason::Misplaced => 4,
            Reason::Alphabet => 5,
            Reason::OutsideAlphabet => 6,
            Reason::Number => 7,
            Reason::Depth => 8,
            Reason::Arms => 9,
            Reason::States => 10,
            Reason::Rows => 11,
            Reason::Malformed => 21,
            Reason::LongWord => 22,
            Reason::OtherLetter => 23,
            Reason::HighLimit => 24,
            Reason::MarkBytes => 25,
        }
    }
}

// A reason, and the place that document 01 gives it.
#[derive(Clone, Copy, Debug, PartialEq, Eq)]
pub struct Refusal {
    pub reason: Reason,
    pub place: usize,
}
