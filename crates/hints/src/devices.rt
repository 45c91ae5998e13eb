// After a file that cannot be read or written, and after other refusals that have no place in a text.

use crate::lines::Lines;
use crate::paths::push_path;
use crate::values::Hints;
use plan_words::FileLine;
use std::alloc::{AllocError, Global};
use std::fmt::Display;
use std::io::Error;

/// A file that the command line names: by which argument, what it is to be, and its path.
#[derive(Clone, Copy)]
pub struct Named<'a> {
    pub argument: &'static str,
    pub what: &'static str,
    pub path: &'a str,
}

/// After a file that cannot be opened, with the error of the system.
pub fn on_opening(alloc: Global, file: Named<'_>, error: &Error) -> Result<Hints, AllocError> {
    on_file(alloc, file, "cannot be opened:", Some(error))
}

/// After standard input, where it is closed.
pub fn on_closed_input(alloc: Global, file: Named<'_>) -> Result<Hints, AllocError> {
    let Named { argument, what, .. } = file;
    let words = format_args!(
        "{argument}, the {what}, is to come from standard input, which is closed"
    );
    said(alloc, words, None)
}

/// After a file that was opened and cannot be read to its end. Where its reader failed there is the error of the system.
pub fn on_reading(
    alloc: Global,
    file: Named<'_>,
    error: Option<&Error>,
) -> Result<Hints, AllocError> {
    let words = match error {
        Some(_) => "cannot be read to its end:",
        None => "gave an error in reading, or has no end",
    };
    on_file(alloc, file, words, error)
}

/// After the file of this path, which stands on that line of a brief, and cannot be opened or read to its end. Where the system says
/// why, there is its error.
pub fn on_named_file(
    alloc: Global,
    at: FileLine<'_>,
    path: &str,
    error: Option<&Error>,
) -> Result<Hints, AllocError> {
    let mut lines = Lines::new(alloc);
    push_path(alloc, &mut lines, at.file);
    lines.part(" names ");
    push_path(alloc, &mut lines, path);
    lines.part(format_args!(" on line {}, which ", at.line));
    lines.say(match error {
        Some(_) => "cannot be read:",
        None => "gave an error in reading, or has no end",
    });
    with_error(lines, error)
}

/// After a report that was not taken whole: by the file of this path, or by standard output.
pub fn on_writing(
    alloc: Global,
    output: Option<&str>,
    error: Option<&Error>,
) -> Result<Hints, AllocError> {
    let end = if error.is_some() { ":" } else { "" };
    match output {
        Some(path) => {
            let mut lines = Lines::new(alloc);
            lines.part("the output ");
            push_path(alloc, &mut lines, path);
            lines.say(format_args!(" was not written{end}"));
            with_error(lines, error)
        }
        None => {
            let words = format_args!("standard output did not take the whole report{end}");
            said(alloc, words, error)
        }
    }
}

/// Why a run has no waves.
#[derive(Clone, Copy)]
pub enum NoWaves {
    /// The plan has no unsafe pair.
    Safe,
    /// The pair with this number is safe.
    SafePair(u32),
    /// The plan has no pair with this number.
    NoPair(u32),
    /// Nothing was rehearsed.
    Unplayed,
}

/// After a run that has no waves for the file of this path.
pub fn on_no_waves(alloc: Global, path: &str, why: NoWaves) -> Result<Hints, AllocError> {
    let mut lines = Lines::new(alloc);
    match why {
        NoWaves::Safe => lines.part("the plan is safe"),
        NoWaves::SafePair(pair) => lines.part(format_args!("pair {pair} is safe")),
        NoWaves::NoPair(pair) => lines.part(format_args!("the plan has no pair {pair}")),
        NoWaves::Unplayed => lines.part("nothing was rehearsed"),
    }
    lines.part(": there is nothing to draw, so ");
    push_path(alloc, &mut lines, path);
    lines.say(" was not written");
    lines.finish()
}

/// After the certificate of an unsafe plan, in the file of this path or on standard output.
pub fn on_fault(alloc: Global, output: Option<&str>) -> Result<Hints, AllocError> {
    let mut lines = Lines::new(alloc);
    lines.part("the plan is not safe: what was written");
    if let Some(path) = output {
        lines.part(", ");
        push_path(alloc, &mut lines, path);
        lines.part(",");
    }
    lines.say(" is a fault, and no proof");
    lines.say("'twire check PLAN --explain' shows the unsafe pairs");
    lines.finish()
}

/// After a rehearsal in which no target acknowledged anything.
pub fn on_no_answers(alloc: Global) -> Result<Hints, AllocError> {
    said(
        alloc,
        "nothing was acknowledged, as on a bus without targets: '--rest 0' acknowledges each byte, and '--answers' has a bit for each slot",
        None,
    )
}

/// After a time with a unit, of which the capture does not say what it counts.
pub fn on_no_timescale(alloc: Global) -> Result<Hints, AllocError> {
    let mut lines = Lines::new(alloc);
    lines.say("the capture does not say what its times count: it has no $timescale");
    lines.say("give times as plain numbers, as they stand in the file");
    lines.finish()
}

/// After a number of workers that is refused.
pub fn on_workers(alloc: Global) -> Result<Hints, AllocError> {
    said(alloc, "'--workers' takes 1 to 8", None)
}

/// After out of memory.
pub fn on_memory(alloc: Global) -> Result<Hints, AllocError> {
    said(
        alloc,
        "the system gave no more memory: is there a limit ('ulimit -v')?",
        None,
    )
}

fn on_file(
    alloc: Global,
    file: Named<'_>,
    words: &str,
    error: Option<&Error>,
) -> Result<Hints, AllocError> {
    let Named {
        argument,
        what,
        path,
    } = file;
    if path == "-" {
        let words = format_args!("{argument}, the {what} from standard input, {words}");
        return said(alloc, words, error);
    }
    let mut lines = Lines::new(alloc);
    lines.part(format_args!("{argument}, the {what} "));
    push_path(alloc, &mut lines, path);
    lines.say(format_args!(", {words}"));
    with_error(lines, error)
}

// A sentence, and the words of the system.
fn said<W: Display + Drop>(
    alloc: Global,
    words: W,
    error: Option<&Error>,
) -> Result<Hints, AllocError> {
    let mut lines = Lines::new(alloc);
    lines.say(words);
    with_error(lines, error)
}

fn with_error(mut lines: Lines, error: Option<&Error>) -> Result<Hints, AllocError> {
    if let Some(error) = error {
        lines.say(error);
    }
    lines.finish()
}
