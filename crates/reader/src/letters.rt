// The letters of the alphabet, in the setting's order: 16 at most. An array with its length, and no `ArrayVec` of the kit: that is not
// `Copy`, so each scope would borrow it, which is no plainer.
ghost use Rattle.std.specs.Prelude.{◌≡◌, ◌≤◌, length};

#[derive(Clone, Copy)]
pub struct Letters {
    pub bytes: [u8; 16],
    pub count: usize,
    ghost few: { count ≤ 16 },
    ghost room: { length bytes ≡ 16 },
}

impl Letters {
    ghost use Rattle.std.specs.Prelude.{[], ◌∷◌, ◌++◌, ◌<◌};
    ghost use Rattle.rule.specs.Limits.{is_in};
    ghost use Rattle.reader.specs.Inside.Answers.{alphabet_of};

    pub fn none() -> Letters
        ensures { alphabet_of result ≡ [] }
    {
        Letters {
            bytes: [0; 16],
            count: 0,
        }
    }

    pub fn has(&self, byte: u8) -> bool
        ensures { result ≡ is_in byte (alphabet_of self.now) }
    {
        self.bytes[..self.count].contains(&byte)
    }

    pub fn with(self, byte: u8) -> Letters
        requires { self.count < 16 }
        ensures { alphabet_of result ≡ alphabet_of self ++ (byte ∷ []) }
    {
        let mut next = self;
        next.bytes[self.count] = byte;
        next.count += 1;
        next
    }
}
