// What a block or a condition stands in: the letters of the alphabet, and how many of its kind are open around it, 16 at most.
ghost use Rattle.std.specs.Prelude.{◌≤◌};

use super::letters::Letters;

#[derive(Clone, Copy)]
pub struct Scope {
    pub letters: Letters,
    pub depth: usize,
    ghost shallow: { depth ≤ 16 },
}

impl Scope {
    ghost use Rattle.std.specs.Prelude.{◌≡◌};
    ghost use Rattle.reader.specs.Inside.Answers.{Opened};

    // None is open yet.
    pub fn new(letters: Letters) -> Scope
        ensures { (result.letters ≡ letters) × (result.depth ≡ 0) }
    {
        Scope { letters, depth: 0 }
    }

    // One more is open, if it may be.
    pub fn opened(self) -> Option<Scope>
        ensures { Opened self result }
    {
        if self.depth == 16 {
            return None;
        }
        Some(Scope {
            letters: self.letters,
            depth: self.depth + 1,
        })
    }
}
