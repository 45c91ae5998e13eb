//! Which build a program is: the line that the build appends to its file. Nothing proves what it says.
#![tactic(auto)]

use std::alloc::Global;
use std::io::{self, Read, Seek, SeekFrom};
use std::rt::Files;
use std::{fs, str};

// The program's own file.
const PROGRAM: &str = "/proc/self/exe";

// How the line begins that the build appends to that file, and how many bytes it has at most.
const MARK: &[u8] = b"twire build: ";

const LONGEST: i64 = 96;

/// The last bytes of the program's own file. None where it cannot be read.
pub fn own_end<R: Files + AllocGlobal>(rt: &R) -> Vec<u8> {
    match end_of(rt, rt.alloc()) {
        Ok(end) => end,
        Err(_) => Vec::new(rt.alloc()),
    }
}

fn end_of<R: Files>(rt: &R, alloc: Global) -> io::Result<Vec<u8>> {
    let mut end = Vec::new(alloc);
    let mut file = fs::open(rt, PROGRAM)?;
    file.seek(SeekFrom::End(-LONGEST))?;
    file.read_to_end(&mut end)?;
    Ok(end)
}

/// What the line says that ends these bytes: whether the build is proved, and of which sources. Without one it is unknown.
pub fn build_in(end: &[u8]) -> &str {
    line_in(end).unwrap_or("unknown build")
}

fn line_in(end: &[u8]) -> Option<&str> {
    let line = end.strip_suffix(b"\n")?.rsplit(is_end).next()?;
    str::from_utf8(line.strip_prefix(MARK)?).ok()
}

fn is_end(byte: &u8) -> bool {
    *byte == b'\n'
}
