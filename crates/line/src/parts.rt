// What a line is made of, one part behind the other.
ghost use Rattle.std.specs.Prelude.{◌+◌, ◌≤◌, [], ◌∷◌, ◌++◌, ◌≡◌, length, drop};
ghost use Rattle.line.specs.Decimal.{decimal};
ghost use Rattle.line.specs.Inside.Adding.{Adds};

// These bytes behind those that stand already. `saving` and `compiler` have such a function too: one that crates share has no `requires`,
// and would have to say what it does where the bytes don't fit.
pub fn add(out: &mut [u8], at: usize, bytes: &[u8]) -> usize
    requires { at + length bytes.now ≤ length out.old }
    ensures { Adds out.old out.new at result bytes.now }
{
    let end = at + bytes.len();
    out[at..end].copy_from_slice(bytes);
    end
}

// A number's digits at the end of a buffer, and where they begin. Twenty are enough for every number of 64 bits. By hand, from the last
// digit on: the kit's `itoa` would write them, but what that crate states would be trusted anew.
fn digits_at_end(n: u64, digits: &mut [u8; 20]) -> usize
    ensures within { result ≤ 20 }
    ensures digits { drop result digits.new ≡ decimal n }
{
    let mut start = 20;
    let mut left = n;
    while 10 <= left {
        start -= 1;
        digits[start] = (left % 10) as u8 + b'0';
        left /= 10;
    }
    start -= 1;
    digits[start] = left as u8 + b'0';
    start
}

// A number, and a byte behind it.
pub fn number(out: &mut [u8], at: usize, n: usize, behind: u8) -> usize
    requires { at + 21 ≤ length out.old }
    ensures { Adds out.old out.new at result (decimal n ++ (behind ∷ [])) }
{
    let mut digits = [0u8; 20];
    let start = digits_at_end(n as u64, &mut digits);
    let end = add(out, at, &digits[start..]);
    add(out, end, &[behind])
}
