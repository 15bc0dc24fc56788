// The names of files. A name is bytes to the system, and text to the library that opens files.
ghost use Rattle.std.specs.Prelude.{◌≡◌, IfOk};

use std::fs::{File, Files};
use std::io::{Error, ErrorKind};
use std::{io, str};

// The text that a name is.
pub fn text(name: &[u8]) -> io::Result<&str>
    ensures { IfOk result (λ s. s.now ≡ name.now) }
{
    match str::from_utf8(name) {
        Ok(name) => Ok(name),
        Err(_) => {
            let words = "a file's name must be UTF-8";
            Err(Error::new(ErrorKind::InvalidFilename, words))
        }
    }
}

// Opens the file of this name for reading.
pub fn open<R: Files>(rt: &R, name: &[u8]) -> io::Result<R::File> {
    File::open(rt, text(name)?)
}
