// How many bits of a slice of bytes are set, and whether none is.
#![tactic(auto)]

ghost use Rattle.std.specs.Prelude.{ℕ, ◌≡◌, ◌≤◌, length, take, get_or, sum_by, count_ones};
ghost use Rattle.bits.specs.Tells.{Tells};
ghost use Rattle.ones.specs.Blank.{Blank};
ghost use Rattle.ones.specs.Ones.{Ones};

// Whether these bytes are all 0. All their bits are gathered and looked at once: with `all`, a test of each byte, the count over 32 KiB of
// zeros took 22 microseconds in place of 1.3.
fn zeros(part: &[u8]) -> bool
    ensures { Tells result ((k : ℕ) → get_or part.now k 0 ≡ 0) }
{
    part.iter().fold(0, |gathered, b| gathered | b) == 0
}

// Whether the bytes from one place up to another are all 0; one past the end counts as 0.
pub fn blank(m: &[u8], from: usize, to: usize) -> bool
    ensures { Tells result (Blank m.now from to) }
{
    let end = to.min(m.len());
    end <= from || zeros(&m[from..end])
}

// How many bits are set in at most 256 bytes. So few fit 16 bits, in which several are added at once.
fn ones_in(part: &[u8]) -> u16
    requires { length part.now ≤ 256 }
    ensures { result ≡ sum_by count_ones part.now }
{
    if zeros(part) {
        return 0;
    }
    part.iter().map(|b| b.count_ones() as u16).sum()
}

// How many bits are set in the first 65,536 bytes.
pub fn count_ones(m: &[u8]) -> usize
    ensures { Ones (take 65536 m.now) result }
{
    let mut sum: usize = 0;
    for part in m[..m.len().min(65536)].chunks(256) {
        sum += ones_in(part) as usize;
    }
    sum
}
