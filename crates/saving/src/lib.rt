// Writing a file whole: to a new file beside it, which takes its name when it is written, so that a failure leaves nothing behind
// and the old file as it was. Nothing is replaced but a file that is not the one that was read.
#![tactic(auto)]

mod seen;

ghost use Rattle.std.specs.Prelude.{◌+◌, ◌≤◌, ◌<◌, ◌≡◌, ◌++◌, true, length, take, drop, OnOk, is_ok};
ghost use Rattle.std.specs.Io.KnownBytes.{Appends};
ghost use Rattle.saving.specs.Names.{nameable};
ghost use Rattle.saving.specs.Inside.Naming.{Named, Ended, Tried};
ghost use Rattle.saving.specs.Inside.Seen.{replaceable};

use crate::seen::{Seen, Stands, at, behind};
use files::{fail, say, text};
use std::fs::{Files, OpenFile, OpenOptions, Permissions};
use std::io::{ErrorKind, Write};
use std::os::unix::fs::PermissionsExt;
use std::{fs, io};

// What keeps an image from being saved: in words, or an error of the system; and of which name.
#[derive(Clone, Copy)]
enum Unsaved<'a> {
    Said { name: &'a [u8], what: &'a [u8] },
    Failed { name: &'a [u8], error: io::Error },
}

// A file can be saved under a name of these bytes.
fn named(path: &[u8]) -> Result<(), Unsaved<'_>>
    ensures { is_ok result ≡ nameable (length path.now) }
{
    if path.is_empty() {
        return Err(Unsaved::Said {
            name: b"a file's name",
            what: b"it is empty",
        });
    }
    if 4090 < path.len() {
        return Err(Unsaved::Said {
            name: path,
            what: b"File name too long",
        });
    }
    Ok(())
}

// These bytes in place of those from `at` on. `line` and `compiler` have such a function too: one that crates share has no `requires`, and
// would have to say what it does where the bytes don't fit.
fn put_bytes(buffer: &mut [u8], at: usize, bytes: &[u8])
    requires { at + length bytes.now ≤ length buffer.old }
    ensures { buffer.new ≡ take at buffer.old ++ bytes.now ++ drop (at + length bytes.now) buffer.old }
{
    let end = at + bytes.len();
    buffer[at..end].copy_from_slice(bytes);
}

// A name with these bytes behind it, in a buffer whose last byte is 0. (A vector of fixed size from the kit would be trusted anew.)
fn with_behind(path: &[u8], more: &[u8]) -> [u8; 4096]
    requires { length path.now + length more.now ≤ 4095 }
    ensures named { Named result path.now more.now }
    ensures ended { Ended result }
{
    let mut name = [0u8; 4096];
    put_bytes(&mut name, 0, path);
    put_bytes(&mut name, path.len(), more);
    name[4095] = 0;
    name
}

// An image may be put where this stands, the rule having been read from this file or not.
fn may_replace(path: &[u8], old: Option<Stands>, rule: bool) -> Result<(), Unsaved<'_>>
    ensures { is_ok result ≡ replaceable old rule }
{
    let what: &[u8] = match old {
        None => return Ok(()),
        Some(Stands::File) if !rule => return Ok(()),
        Some(Stands::File) => b"this is the rule that is read; give the image another name",
        Some(Stands::Folder) => b"Is a directory",
        Some(Stands::Link) => b"this is a link; name the file that it leads to",
        Some(Stands::Other) => b"this is no file that an image could replace",
    };
    Err(Unsaved::Said { name: path, what })
}

// Makes a file of this name, which no file may have.
fn create_once<R: Files>(rt: &R, name: &[u8]) -> io::Result<R::File> {
    OpenOptions::new()
        .write(true)
        .create_new(true)
        .open(rt, text(name)?)
}

// Makes a file of a name that no file has: the name's last byte becomes the first digit with which it is free.
fn create<R: Files>(rt: &R, name: &mut [u8]) -> io::Result<R::File>
    requires { 0 < length name.old }
    ensures { Tried name.old name.new }
{
    let last = name.len() - 1;
    for digit in b'0'..b'9' {
        name[last] = digit;
        match create_once(rt, name) {
            Err(error) if error.kind() == ErrorKind::AlreadyExists => {}
            made => return made,
        }
    }
    name[last] = b'9';
    create_once(rt, name)
}

fn not_created(path: &[u8], error: io::Error) -> Unsaved<'_> {
    if error.kind() == ErrorKind::AlreadyExists {
        return Unsaved::Said {
            name: path,
            what: b"the names with .new0 to .new9 behind it are all taken; remove what is not needed",
        };
    }
    Unsaved::Failed { name: path, error }
}

// Gives the new file the old one's permissions, if there was one, and all of the bytes, on its device.
fn written<F: Write + OpenFile>(
    file: &mut F,
    content: &[u8],
    old_mode: Option<u32>,
) -> io::Result<()>
    ensures { OnOk result (Appends (F.contents file.old) (F.contents file.new) content.now) }
{
    if let Some(mode) = old_mode {
        file.set_permissions(Permissions::from_mode(mode % 512))?;
    }
    file.write_all(content)?;
    file.sync_all()
}

// It is closed where this returns, before it is renamed.
fn written_and_closed<F: Write + OpenFile + Drop>(
    mut file: F,
    content: &[u8],
    old_mode: Option<u32>,
) -> io::Result<()> {
    written(&mut file, content, old_mode)
}

// Writes the new file of this name, and gives it the path's name. (Each step takes other ones of these, so no struct holds them.)
fn put_new<R: Files>(
    rt: &R,
    file: R::File,
    name: &[u8],
    path: &[u8],
    content: &[u8],
    old_mode: Option<u32>,
) -> io::Result<()> {
    written_and_closed(file, content, old_mode)?;
    fs::rename(rt, text(name)?, text(path)?)
}

fn remove<R: Files>(rt: &R, name: &[u8]) -> io::Result<()> {
    fs::remove_file(rt, text(name)?)
}

// Writes a new file of this name, up to its last byte, and gives it the path's name; or says what failed and removes it.
fn put_by<R: Files + AllocGlobal, W: Write>(
    rt: &R,
    errors: &mut W,
    name: &mut [u8],
    path: &[u8],
    content: &[u8],
    old_mode: Option<u32>,
) -> bool
    requires { 0 < length name.old }
    ensures { Tried name.old name.new }
{
    let file = match create(rt, name) {
        Ok(file) => file,
        Err(error) => {
            let _ = told(rt, errors, not_created(path, error));
            return false;
        }
    };
    if let Err(error) = put_new(rt, file, name, path, content, old_mode) {
        let _ = fail(rt, errors, path, error);
        let _ = remove(rt, name);
        return false;
    }
    true
}

fn put<R: Files + AllocGlobal, W: Write>(
    rt: &R,
    errors: &mut W,
    path: &[u8],
    content: &[u8],
    old_mode: Option<u32>,
) -> bool
    requires { nameable (length path.now) ≡ true }
{
    let mut name = with_behind(path, b".new0");
    let n = path.len() + 5;
    put_by(rt, errors, &mut name[..n], path, content, old_mode)
}

// Whether what stands there is the file that was read. Where nothing stands, that need not be asked.
fn is_source<R: Files>(rt: &R, old: Option<Seen>, source: &str) -> io::Result<bool> {
    match old {
        Some(seen) => Ok(seen.same(behind(rt, source)?)),
        None => Ok(false),
    }
}

// The mode of the file that stands at the name, if one does: a file can be saved there, and it is not the one to which `source` leads.
fn replaced<'a, R: Files>(
    rt: &R,
    path: &'a [u8],
    source: &'a str,
) -> Result<Option<u32>, Unsaved<'a>>
    ensures { OnOk result (nameable (length path.now) ≡ true) }
{
    named(path)?;
    let old = at(rt, path).map_err(|error| Unsaved::Failed { name: path, error })?;
    let rule = is_source(rt, old, source).map_err(|error| Unsaved::Failed {
        name: source.as_bytes(),
        error,
    })?;
    may_replace(path, old.map(|seen| seen.kind()), rule)?;
    Ok(old.map(|seen| seen.mode))
}

// Says what kept an image from being saved.
fn told<R: AllocGlobal, W: Write>(rt: &R, errors: &mut W, why: Unsaved<'_>) -> io::Result<()> {
    match why {
        Unsaved::Said { name, what } => say(errors, name, what),
        Unsaved::Failed { name, error } => fail(rt, errors, name, error),
    }
}

// Saves a file whole under a name where nothing stands, or a file that is not the one to which `source` leads; says on standard error
// what kept it from that. So the answer has no error left to carry: it is whether the file is there.
pub fn save<R: Files + AllocGlobal, W: Write>(
    rt: &R,
    errors: &mut W,
    path: &[u8],
    content: &[u8],
    source: &str,
) -> bool
    ensures { result ≡ true → nameable (length path.now) ≡ true }
{
    match replaced(rt, path, source) {
        Ok(old_mode) => put(rt, errors, path, content, old_mode),
        Err(why) => {
            let _ = told(rt, errors, why);
            false
        }
    }
}
