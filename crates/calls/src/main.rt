//! Makes calls of the libraries that no command of twire makes, and answers as twire does. It is run by the trials alone
//! (`tests/trials.sh`), which know what each is to answer:
//!
//!     calls CALL [FIRST SECOND [WORD [WORD]]]
//!
//! `words` has the calls. `texts` makes those that take whole texts, on the plan that they are of: what says what a command
//! says (`making`, with a plan that is built again by `building`), calls on whole lists (`lists`), and the calls without
//! memory, while every allocation is refused (`quiet`). `seats` opens a bench, on whose seats a script is run (`scripts`), or
//! which play while every allocation is refused; they are one value with it (`sittings`). `scarcity` names to
//! `tests/trials/devices.c` which allocations it refuses.
#![tactic(auto)]

mod building;
mod lists;
mod making;
mod quiet;
mod scarcity;
mod scripts;
mod seats;
mod sittings;
mod tasks;
mod texts;
mod words;

use crate::making::accepted;
use crate::quiet::ITEMS;
use crate::scarcity::{is_there, obeys};
use crate::tasks::Task;
use crate::texts::run_on_texts;
use crate::words::{Asked, Call, asked_of};
use growing_text::Text;
use run_parts::devices::reading::READS;
use run_parts::{Input, RunError, Status, Watched, read_within, write_lines};
use std::alloc::{AllocError, Global};
use std::io::ErrorKind;
use std::process::ExitCode;
use std::rt::{Env, Files};
use std::thread::Threads;
use std::{env, fs, io};

const USAGE: &str = "usage: calls CALL [FIRST SECOND [WORD [WORD]]]\n";

fn main(rt: HostRuntime) -> ExitCode {
    ExitCode::from(match run(&rt) {
        Ok(Status::Good) => 0,
        Ok(Status::Bad) => 1,
        Ok(Status::Refused) => 2,
        Err(error) => {
            let _ = eprintln!(rt; "refused {error}");
            2
        }
    })
}

fn run<R: Files + Env + Print + AllocGlobal + Threads + Sync>(rt: &R) -> Result<Status, RunError> {
    let mut page = Text::new(rt.alloc());
    let ended = run_words(rt, &mut page);
    write_page(rt, ended, page.finish())
}

// Nothing is written of a call that is refused.
fn write_page<R: Print>(
    rt: &R,
    ended: Result<Status, RunError>,
    page: Result<String, AllocError>,
) -> Result<Status, RunError> {
    let status = ended?;
    let page = page?;
    write_lines(&mut Watched::new(io::writer(rt)), page.as_bytes(), status)
}

fn run_words<R: Files + Env + AllocGlobal + Threads + Sync>(
    rt: &R,
    page: &mut Text,
) -> Result<Status, RunError> {
    let Ok(words) = env::args(rt) else {
        return Err(RunError::Read);
    };
    let words: Vec<String> = words.collect(rt.alloc())?;
    match asked_of(words.as_slice()) {
        Some(asked) => run_asked(rt, &asked, page),
        None => {
            page.push(USAGE);
            Ok(Status::Refused)
        }
    }
}

fn run_asked<R: Files + AllocGlobal + Threads + Sync>(
    rt: &R,
    asked: &Asked<'_>,
    page: &mut Text,
) -> Result<Status, RunError> {
    match asked.call {
        Call::Obeys => Ok(tell_obeys(rt.alloc(), page)),
        Call::Quiet => run_on_items(rt, asked, page),
        _ => run_on_paths(rt, asked, page),
    }
}

fn tell_obeys(alloc: Global, page: &mut Text) -> Status {
    let does_obey = is_there(alloc) && obeys(alloc);
    page.push(if does_obey {
        "obeys\n"
    } else {
        "does not obey\n"
    });
    Status::Good
}

// The calls that need no text, on a plan of their own.
fn run_on_items<R: AllocGlobal + Threads + Sync>(
    rt: &R,
    asked: &Asked<'_>,
    page: &mut Text,
) -> Result<Status, RunError> {
    if !is_there(rt.alloc()) {
        page.push("not quiet\n");
        return Ok(Status::Good);
    }
    let task = Task {
        alloc: rt.alloc(),
        call: asked.call,
        first: ITEMS.as_bytes(),
        second: b"",
        one: asked.one,
        other: asked.other,
    };
    run_on_texts(rt, &task, page)
}

fn run_on_paths<R: Files + AllocGlobal + Threads + Sync>(
    rt: &R,
    asked: &Asked<'_>,
    page: &mut Text,
) -> Result<Status, RunError> {
    let mut first = Watched::new(opened(rt, asked.first)?);
    let mut second = Watched::new(opened(rt, asked.second)?);
    run_on_files(rt, asked, &mut first, &mut second, page)
}

fn opened<R: Files>(rt: &R, path: &str) -> Result<R::File, RunError> {
    match fs::open(rt, path) {
        Ok(file) => Ok(file),
        Err(error) if error.kind() == ErrorKind::OutOfMemory => Err(RunError::NoMemory),
        Err(_) => Err(RunError::Read),
    }
}

fn run_on_files<R: AllocGlobal + Threads + Sync, I: Input>(
    rt: &R,
    asked: &Asked<'_>,
    first: &mut I,
    second: &mut I,
    page: &mut Text,
) -> Result<Status, RunError> {
    let first = read_first(rt.alloc(), asked.call, first)?;
    let second = read_within(rt.alloc(), second, READS)?;
    let task = Task {
        alloc: rt.alloc(),
        call: asked.call,
        first: first.as_slice(),
        second: second.as_slice(),
        one: asked.one,
        other: asked.other,
    };
    run_on_texts(rt, &task, page)
}

// As `twire bench` does, a script on seats has a plan refused before the second file is read.
fn read_first<I: Input>(alloc: Global, call: Call, file: &mut I) -> Result<Vec<u8>, RunError> {
    let text = read_within(alloc, file, READS)?;
    if let Call::Seats = call {
        accepted(alloc, text.as_slice(), b"")?;
    }
    Ok(text)
}
