// compile [IMAGE]: compiles the rule on standard input and prints one line, `ok STATES ROWS BYTES` or `no NUMBER PLACE`. With
// a name it also writes the image to the file of that name, if the rule compiles. What keeps it from that is said on standard
// error, and then no line is printed.
#![tactic(auto)]

use std::env::{Env, FillError};
use std::io::Write;

// The name that leads to the file behind standard input, whatever that file is called.
const STANDARD_INPUT: &str = "/proc/self/fd/0";

// Whether an argument is there, be it longer than any name.
fn given(rt: &HostRuntime, i: usize) -> bool {
    !matches!(rt.arg(i, &mut []), Err(FillError::NotPresent))
}

fn usage(rt: &HostRuntime) {
    let _ = rt.stderr().write_all(
        b"compile: the rule comes on standard input, and at most one name is given, of a file for the image\n",
    );
}

// Whether the image is in the file that was named, if one was.
fn saved(rt: &HostRuntime, image: &[u8]) -> bool {
    let mut path = [0u8; 4096];
    match rt.arg(1, &mut path) {
        Ok(n) => saving::save(rt, &mut rt.stderr(), &path[..n], image, STANDARD_INPUT),
        Err(FillError::NotPresent) => true,
        Err(FillError::TooLong) => {
            let _ = files::say(
                &mut rt.stderr(),
                b"compile: the name of the image's file",
                b"File name too long",
            );
            false
        }
    }
}

// The file is written before the line, so that `ok` says that it is there.
fn compile(rt: &HostRuntime, text: &[u8]) {
    let mut image = [0u8; 8246];
    let mut line = [0u8; 66];
    let answered = programs::compile_text(text, &mut image, &mut line);
    if let Some(bytes) = answered.image {
        if !saved(rt, &image[..bytes]) {
            return;
        }
    }
    let length = answered.line;
    let name = b"compile: standard output";
    let _ = files::show(
        rt,
        &mut rt.stdout(),
        &mut rt.stderr(),
        name,
        &line[..length],
    );
}

fn main(rt: HostRuntime) {
    if given(&rt, 2) {
        usage(&rt);
        return;
    }
    // A text may have 4,096 bytes, so a buffer that is full tells a longer one.
    let mut text = [0u8; 4097];
    match files::read_all(&mut rt.stdin(), &mut text) {
        Ok(n) => compile(&rt, &text[..n]),
        Err(error) => {
            let _ = files::fail(&rt, &mut rt.stderr(), b"compile: standard input", error);
        }
    }
}
