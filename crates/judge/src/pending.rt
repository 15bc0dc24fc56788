// Which situation to follow next. Bit 262144 + i of the marks says that situation i is pending.
ghost use Rattle.std.specs.Prelude.{◌≡◌, ◌+◌, ◌^◌, ◌/◌, ◌%◌, ◌≤◌, ◌<◌};
ghost use Rattle.judgement.specs.Marks.{mark_bytes};
ghost use Rattle.judge.specs.Inside.Search.{situations, marked};
ghost use Rattle.judge.specs.Inside.Inner.{FirstSet, Guess, TryRight, Picked};

pub const SITUATIONS: usize = 262144;

pub const MARK_BYTES: usize = 65536;

// The lowest bit of a byte that is set.
fn lowest(b: u8) -> usize
    requires { 0 < b }
    ensures { (result < 8) × (b / 2 ^ result % 2 ≡ 1) }
{
    b.trailing_zeros() as usize
}

// The first bit that is set in the bytes from one place up to another. Most bytes that are asked for are all 0, and it is sooner seen of
// them together than of each.
pub fn first_set(marks: &[u8; MARK_BYTES], from: usize, to: usize) -> Option<usize>
    requires { (from ≤ to) × (to ≤ mark_bytes) }
    ensures { FirstSet marks.now from to result }
{
    if ones::blank(marks, from, to) {
        return None;
    }
    for at in from..to {
        let b = marks[at];
        if 0 < b {
            return Some(at * 8 + lowest(b));
        }
    }
    None
}

// The first pending situation among the 128 of a group.
fn among(marks: &[u8; MARK_BYTES], group: usize) -> Option<usize>
    requires { group < 2048 }
    ensures { Guess marks.now result }
{
    let at = 32768 + group * 16;
    let bit = first_set(marks, at, at + 16)?;
    Some(bit - SITUATIONS)
}

// What following a hint comes to: a pending situation, a hint that was dropped, or no hint. (An option in an option would not say
// which none is which.)
#[derive(Clone, Copy)]
enum Try {
    Found(usize),
    Stale,
    Nothing,
}

// Where a pending bit may stand: bit g % 64 of word g / 64 is for the 128 situations from 128 * g on, and bit w of the last word for
// word w. The hints only save time, and nothing rests on them: a hint that says too much is dropped, and where they say nothing every
// bit is looked at.
// (One array, since the last word is found, set and cleared like the others.)
#[derive(Drop)]
pub struct Hints {
    words: [u64; 33],
}

impl Hints {
    pub fn none() -> Hints {
        Hints { words: [0; 33] }
    }

    // Notes that a situation may be pending.
    fn add(&mut self, i: usize) {
        let word = i / 8192 % 32;
        self.words[word] |= 1 << (i / 128 % 64);
        self.words[32] |= 1 << word;
    }

    // Follows the first hint.
    fn follow(&mut self, marks: &[u8; MARK_BYTES]) -> Try
        ensures { TryRight marks.now result }
    {
        let top = self.words[32];
        let w = top.trailing_zeros() as usize;
        if 32 <= w {
            return Try::Nothing;
        }
        let word = self.words[w];
        let b = word.trailing_zeros() as usize;
        if 64 <= b {
            self.words[32] = top ^ (1 << w);
            return Try::Stale;
        }
        match among(marks, w * 64 + b) {
            Some(i) => Try::Found(i),
            None => {
                self.words[w] = word ^ (1 << b);
                Try::Stale
            }
        }
    }

    // A pending situation that the hints lead to. As many turns are enough for every hint to be dropped.
    fn lead(&mut self, marks: &[u8; MARK_BYTES]) -> Option<usize>
        ensures { Guess marks.now result }
    {
        for _ in 0usize..4096 {
            match self.follow(marks) {
                Try::Found(i) => return Some(i),
                Try::Nothing => return None,
                Try::Stale => {},
            }
        }
        None
    }

    // A pending situation.
    pub fn pick(&mut self, marks: &[u8; MARK_BYTES]) -> Option<usize>
        ensures { Picked marks.now result }
    {
        if let Some(i) = self.lead(marks) {
            return Some(i);
        }
        let bit = first_set(marks, MARK_BYTES / 2, MARK_BYTES)?;
        Some(bit - SITUATIONS)
    }

    // Marks a situation as reached and, where it was not, as pending.
    pub fn mark(&mut self, i: usize, marks: &mut [u8; MARK_BYTES])
        requires { i < situations }
        ensures { marks.new ≡ marked marks.old i }
    {
        if bits::bit_at(marks, i) == 1 {
            return;
        }
        bits::set_bit(marks, i);
        bits::set_bit(marks, i + SITUATIONS);
        self.add(i);
    }
}
