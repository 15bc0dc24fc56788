// Files for programs: reading all of one, or of standard input, into a buffer, so that a failed read is never taken for an end;
// opening one by its name; and saying on standard error what failed.
#![tactic(auto)]

mod naming;
mod telling;

ghost use Rattle.std.specs.Prelude.{◌<◌, ◌≤◌, ◌+◌, ◌≡◌, length, take, drop, IfOk};
ghost use Rattle.std.specs.Io.KnownBytes.{Consumes, IsAtEnd};
ghost use Rattle.files.specs.Reading.{Within, Comes, failed_of};

pub use naming::{open, text};
use std::io;
use std::io::Read;
pub use telling::{fail, reason, say, show};

// Reads once into the buffer from `from` on.
fn read_some<R: Read>(reader: &mut R, buf: &mut [u8], from: usize) -> io::Result<usize>
    requires { from < length buf.old }
    ensures size { length buf.new ≡ length buf.old }
    ensures front { take from buf.new ≡ take from buf.old }
    ensures fits { IfOk result (λ n. from + n ≤ length buf.new) }
    ensures bytes { IfOk result (λ n. Consumes (R.remaining reader.old) (R.remaining reader.new) (take n (drop from buf.new))) }
    ensures end { IfOk result (λ n. n ≡ 0 → IsAtEnd (R.remaining reader.new)) }
{
    reader.read(&mut buf[from..])
}

// Reads until the buffer is full or the input ends. The answer is how many bytes came, or of what a read failed. The library has no method
// for it that says this of a lent buffer: `read_exact` takes the input's end for a failure, and `read_to_end` fills a vector.
pub fn read_all<R: Read>(reader: &mut R, buf: &mut [u8]) -> io::Result<usize>
    ensures within { Within result (length buf.old) }
    ensures size { length buf.new ≡ length buf.old }
    ensures comes { Comes (R.remaining reader.old) (R.remaining reader.new) buf.new result }
{
    let mut n = 0;
    while n < buf.len() {
        let k = read_some(reader, buf, n)?;
        if k == 0 {
            return Ok(n);
        }
        n += k;
    }
    Ok(n)
}

// Whether a read failed.
pub fn failed(input: &io::Result<usize>) -> bool
    ensures { result ≡ failed_of input.now }
{
    input.is_err()
}
