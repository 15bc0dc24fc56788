// What the system knows of a file: what it is, and which one it is.
ghost use Rattle.std.specs.Prelude.{◌≡◌};
ghost use Rattle.saving.specs.Inside.Seen.{stands_of, same_file};

use files::text;
use std::fs::{Files, Metadata};
use std::io::ErrorKind;
use std::os::unix::fs::MetadataExt;
use std::{fs, io};

// The four highest bits of a mode.
const REGULAR: u32 = 8;

const DIRECTORY: u32 = 4;

const LINK: u32 = 10;

// The two numbers that tell a file from every other.
#[derive(Clone, Copy, Debug, PartialEq, Eq)]
pub struct Which {
    pub device: u64,
    pub number: u64,
}

// A file's mode, and which file it is.
#[derive(Clone, Copy, Debug, PartialEq, Eq)]
pub struct Seen {
    pub mode: u32,
    pub which: Which,
}

// What stands at a name, by its mode, of which the definition speaks.
#[derive(Clone, Copy, Debug, PartialEq, Eq)]
pub enum Stands {
    File,
    Folder,
    Link,
    Other,
}

// (No `From`: nothing but these two functions converts.)
fn told(metadata: &Metadata) -> Seen {
    Seen {
        mode: metadata.mode(),
        which: Which {
            device: metadata.dev(),
            number: metadata.ino(),
        },
    }
}

// The file to which a name leads.
pub fn behind<R: Files>(rt: &R, source: &str) -> io::Result<Seen> {
    Ok(told(&fs::metadata(rt, source)?))
}

// What stands at a name, if anything does; a link is not followed, and nothing is opened.
pub fn at<R: Files>(rt: &R, name: &[u8]) -> io::Result<Option<Seen>> {
    match fs::symlink_metadata(rt, text(name)?) {
        Ok(metadata) => Ok(Some(told(&metadata))),
        Err(error) if error.kind() == ErrorKind::NotFound => Ok(None),
        Err(error) => Err(error),
    }
}

impl Seen {
    // What it is. By its mode, of which the definition speaks.
    pub fn kind(self) -> Stands
        ensures { result ≡ stands_of self.mode }
    {
        match self.mode / 4096 {
            REGULAR => Stands::File,
            DIRECTORY => Stands::Folder,
            LINK => Stands::Link,
            _ => Stands::Other,
        }
    }

    // Whether both are one file.
    pub fn same(self, other: Seen) -> bool
        ensures { result ≡ same_file self other }
    {
        self.which == other.which
    }
}
