// The limit that the verdict program is given in digits.
ghost use Rattle.programs.specs.Limit.{Says};

// The limit that one to three digits say. Three are enough: every limit above 31 is refused with the same number. (The library's `parse`
// takes a plus sign too.)
pub fn limit_said(digits: &[u8]) -> Option<u64>
    ensures { Says digits.now result }
{
    if digits.is_empty() || 3 < digits.len() {
        return None;
    }
    let mut value = 0;
    for digit in digits {
        let b = *digit;
        if !b.is_ascii_digit() {
            return None;
        }
        value = 10 * value + u64::from(b - b'0');
    }
    Some(value)
}
