// What a program says on standard error: a name, a colon and what is wrong, as perror writes it.
ghost use Rattle.std.specs.Prelude.{OnOk, ◌≡◌, true};
ghost use Rattle.std.specs.Io.KnownBytes.{Appends};
ghost use Rattle.files.specs.Telling.{told};

use std::alloc::{AllocError, Global};
use std::io;
use std::io::Write;

// Writes this line.
pub fn say<W: Write>(errors: &mut W, name: &[u8], what: &[u8]) -> io::Result<()>
    ensures { OnOk result (Appends (W.contents errors.old) (W.contents errors.new) (told name.now what.now)) }
{
    errors.write_all(name)?;
    errors.write_all(b": ")?;
    errors.write_all(what)?;
    errors.write_all(b"\n")
}

// What is wrong, in the system's words; the library puts the number of the system's error behind them.
pub fn reason(alloc: Global, error: io::Error) -> Result<String, AllocError> {
    let all = error.to_string(alloc)?;
    match all.split_once(" (os error ") {
        Some((words, _)) => String::from_str(alloc, words),
        None => Ok(all),
    }
}

// Says what failed of what has this name.
pub fn fail<R: AllocGlobal, W: Write>(
    rt: &R,
    errors: &mut W,
    name: &[u8],
    error: io::Error,
) -> io::Result<()> {
    match reason(rt.alloc(), error) {
        Ok(words) => say(errors, name, words.as_bytes()),
        Err(_) => say(errors, name, b"Cannot allocate memory"),
    }
}

// Writes a program's line. One that cannot be written is said on standard error: no line never means that all is well. So the answer has no
// error left to carry.
pub fn show<R: AllocGlobal, O: Write, E: Write>(
    rt: &R,
    out: &mut O,
    errors: &mut E,
    name: &[u8],
    line: &[u8],
) -> bool
    ensures { result ≡ true → Appends (O.contents out.old) (O.contents out.new) line.now }
{
    match out.write_all(line) {
        Ok(()) => true,
        Err(error) => {
            let _ = fail(rt, errors, name, error);
            false
        }
    }
}
