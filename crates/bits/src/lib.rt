// Bytes, and bits of a slice of them. Bit i is bit i mod 8, the least being 0, of byte i / 8. What is past the end is 0, as the definitions
// have it, and a bit is a number there, so neither is an Option or a bool.
#![tactic(auto)]

ghost use Rattle.std.specs.Prelude.{◌≡◌, get_or, length, replicate};
ghost use Rattle.bits.specs.Bit.{bit, with_bit, without_bit};
ghost use Rattle.bits.specs.Byte.{is_letter};

// Byte i, or 0 past the end.
pub fn byte_at(m: &[u8], i: usize) -> u8
    ensures { result ≡ get_or m.now i 0 }
{
    m.get(i).copied().unwrap_or(0)
}

// Bit i, or 0 past the end.
pub fn bit_at(m: &[u8], i: usize) -> u8
    ensures { result ≡ bit m.now i }
{
    (byte_at(m, i / 8) >> (i % 8)) % 2
}

// Sets bit i; past the end nothing changes.
pub fn set_bit(m: &mut [u8], i: usize)
    ensures { m.new ≡ with_bit m.old i }
{
    let at = i / 8;
    if at < m.len() {
        m[at] |= 1u8 << (i % 8);
    }
}

// Clears bit i; past the end nothing changes.
pub fn clear_bit(m: &mut [u8], i: usize)
    ensures { m.new ≡ without_bit m.old i }
{
    if bit_at(m, i) == 1 {
        m[i / 8] -= 1u8 << (i % 8);
    }
}

// Every byte becomes 0.
pub fn clear(m: &mut [u8])
    ensures { m.new ≡ replicate (length m.old) 0 }
{
    m.fill(0);
}

// Whether a byte may be a letter: 0-9 A-Z a-z.
pub fn is_letter(b: u8) -> bool
    ensures { result ≡ is_letter b }
{
    b.is_ascii_alphanumeric()
}
