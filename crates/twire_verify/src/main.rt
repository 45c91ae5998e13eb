//! Says what a certificate says of a plan, and does nothing else.
//!
//! What it writes is what `run_verify` of the crate `verifying` promises, and its exit status is that of this run: `verified` has
//! both in its contract. Here stand besides its two arguments, and how the files are opened that they name.
#![tactic(auto)]

mod endings;

use builds::{build_in, own_end};
use endings::{Ending, verified};
use run_parts::{Opened, RunError, Watched};
use std::io::{self, ErrorKind};
use std::process::ExitCode;
use std::rt::{Env, Files};
use std::{env, fs};

const USAGE: &str = "usage: twire-verify PLAN CERT\n";

const VERSION: &str = "twire-verify 0.1.0";

const STANDARD_INPUT: &str = "/dev/stdin";

fn main(rt: HostRuntime) -> ExitCode {
    let ending = run(&rt);
    if let Some(error) = ending.refused {
        let _ = eprintln!(rt; "refused {error}");
    }
    ExitCode::from(ending.code)
}

fn run<R: Files + Env + Input + Print + Eprint + AllocGlobal>(rt: &R) -> Ending {
    let words = match env::args(rt) {
        Ok(words) => words.collect(rt.alloc()),
        Err(error) if error.kind() == ErrorKind::OutOfMemory => {
            return Ending::refused(RunError::NoMemory);
        }
        Err(_) => return misused(rt),
    };
    match words {
        Ok(words) => run_words(rt, words),
        Err(_) => Ending::refused(RunError::NoMemory),
    }
}

fn run_words<R: Files + Input + Print + Eprint + AllocGlobal>(
    rt: &R,
    words: Vec<String>,
) -> Ending {
    let words = words.as_slice();
    let first = word_at(words, 1);
    match words.len() {
        2 if first == "-h" || first == "--help" => show(rt, USAGE),
        2 if first == "--version" => show_version(rt),
        3 => verify(rt, first, word_at(words, 2)),
        _ => misused(rt),
    }
}

// The word in this place, or an empty one.
fn word_at(words: &[String], place: usize) -> &str {
    match words.get(place) {
        Some(word) => word.as_str(),
        None => "",
    }
}

fn show<R: Print>(rt: &R, text: &str) -> Ending {
    shown(print!(rt; "{text}"))
}

// The version, and what the build has written into the program's own file: a label.
fn show_version<R: Files + Print + AllocGlobal>(rt: &R) -> Ending {
    let end = own_end(rt);
    let build = build_in(end.as_slice());
    shown(print!(rt; "{VERSION} ({build})\n"))
}

fn shown(printed: io::Result<()>) -> Ending {
    match printed {
        Ok(()) => Ending::quietly(0),
        Err(_) => Ending::refused(RunError::Write),
    }
}

// Says how the program is called.
fn misused<R: Eprint>(rt: &R) -> Ending {
    let _ = eprint!(rt; "{USAGE}");
    Ending::quietly(2)
}

// A path as /dev/fd/3 may come to name the first file once that is open, so that the second one is looked for before.
fn verify<R: Files + Input + Print + Eprint + AllocGlobal>(
    rt: &R,
    plan: &str,
    cert: &str,
) -> Ending {
    if is_standard_input(plan) && is_standard_input(cert) {
        return misused(rt);
    }
    match opened_both(rt, plan, cert) {
        Ok((mut plan, mut cert)) => {
            let mut out = Watched::new(io::writer(rt));
            verified(rt.alloc(), &mut plan, &mut cert, &mut out)
        }
        Err(error) => Ending::refused(error),
    }
}

fn is_standard_input(path: &str) -> bool {
    matches!(path, "-" | STANDARD_INPUT | "/dev/fd/0" | "/proc/self/fd/0")
}

type Source<F, S> = Opened<Watched<F>, Watched<S>>;

fn opened_both<R: Files + Input>(
    rt: &R,
    plan: &str,
    cert: &str,
) -> Result<(Source<R::File, R::Reader>, Source<R::File, R::Reader>), RunError> {
    find(rt, cert)?;
    let plan = opened(rt, plan)?;
    let cert = opened(rt, cert)?;
    Ok((plan, cert))
}

fn opened<R: Files + Input>(rt: &R, path: &str) -> Result<Source<R::File, R::Reader>, RunError> {
    if is_standard_input(path) {
        find(rt, path)?;
        return Ok(Opened::Standard(Watched::new(rt.reader())));
    }
    match fs::open(rt, path) {
        Ok(file) => Ok(Opened::File(Watched::new(file))),
        Err(error) => Err(reading(&error)),
    }
}

// Whether something is there. Where standard input is closed its path names nothing.
fn find<R: Files>(rt: &R, path: &str) -> Result<(), RunError> {
    let path = if is_standard_input(path) {
        STANDARD_INPUT
    } else {
        path
    };
    match fs::metadata(rt, path) {
        Err(error) if error.kind() == ErrorKind::NotFound => Err(RunError::Read),
        _ => Ok(()),
    }
}

fn reading(error: &io::Error) -> RunError {
    if error.kind() == ErrorKind::OutOfMemory {
        RunError::NoMemory
    } else {
        RunError::Read
    }
}
