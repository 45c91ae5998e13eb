// The names of the signals of a dump, for those who gave one that is not there.

use crate::scoping::push_scopes;
use dump_tokens::{Scale, Time};
use hints::{Lines, Nearest, push_name};
use run_parts::Watched;
use signals::{
    Found, Listing, Picked, base_of, bus_options, fit_of, needs_picking, pick, read_beginning,
};
use std::alloc::{AllocError, Global};
use std::io::{Read, Seek, SeekFrom};
use vcd_read::{Probe, Reader, Signal};

/// What to say of a dump whose definitions have no end.
pub(crate) const BREAKS_OFF: &str =
    "the file ends, or breaks off, among its definitions: it has no '$enddefinitions $end'";

/// How the two lines of the bus are to be found in a dump, and what was asked of it.
#[derive(Clone, Copy)]
pub struct Names<'a> {
    pub scl: Probe<'a>,
    pub sda: Probe<'a>,
    /// The scope in which names are looked for, where there is one.
    pub scope: Option<&'a str>,
    /// Levels that last less were left out.
    pub min_pulse: Option<Time>,
    /// The command and its files, as they can be given once more with other options. It is empty where the command looks for
    /// no lines.
    pub command: &'a str,
    /// The file of the dump, as a command takes it.
    pub vcd: &'a str,
}

impl<'a> Names<'a> {
    /// How one of the two lines is to be found.
    pub(crate) fn of(&self, signal: Signal) -> Probe<'a> {
        match signal {
            Signal::Scl => self.scl,
            Signal::Sda => self.sda,
        }
    }
}

/// The name or the code by which a line is to be found.
pub(crate) fn word_of<'a>(probe: Probe<'a>) -> &'a str {
    match probe {
        Probe::Named(name) => name,
        Probe::Coded(code) | Probe::Bit(code, _) => code,
    }
}

/// A reader of the two lines, as the run had it. There is none where the file cannot be read once more.
pub(crate) fn reader_of<F: Read + Seek>(
    alloc: Global,
    file: &mut F,
    names: Names<'_>,
) -> Option<Reader> {
    let Names {
        scl,
        sda,
        scope,
        ..
    } = names;
    if !needs_picking(scl, sda, scope) {
        return Reader::of(alloc, scl, sda).ok();
    }
    if file.seek(SeekFrom::Start(0)).is_err() {
        return None;
    }
    let mut input = Watched::new(file);
    let Ok((_, picked)) = pick(alloc, &mut input, scl, sda, scope) else {
        return None;
    };
    reader_with(alloc, &picked)
}

/// What one step of the dump's time is, where the dump says it and can be read once more.
pub(crate) fn scale_of<F: Read + Seek + Drop>(
    alloc: Global,
    file: &mut F,
    names: Names<'_>,
) -> Option<Scale> {
    if file.seek(SeekFrom::Start(0)).is_err() {
        return None;
    }
    let mut input = Watched::new(file);
    let Ok((_, picked)) = pick(alloc, &mut input, names.scl, names.sda, names.scope) else {
        return None;
    };
    scale_in(&picked)
}

fn scale_in(picked: &Picked) -> Option<Scale> {
    picked.scale
}

fn reader_with(alloc: Global, picked: &Picked) -> Option<Reader> {
    Reader::of(alloc, picked.scl(), picked.sda()).ok()
}

// One of the two lines, as it is looked for.
#[derive(Clone, Copy)]
struct Wanted<'a> {
    probe: Probe<'a>,
    // whether a signal fits the name
    is_there: bool,
    // how many bits a signal of another size has that has the name, and which of them is the rightmost
    wide: Option<(u32, i64)>,
}

impl<'a> Wanted<'a> {
    fn new(probe: Probe<'a>) -> Wanted<'a> {
        Wanted {
            probe,
            is_there: false,
            wide: None,
        }
    }

    fn see(&mut self, found: Found<'_>) {
        self.is_there = self.is_there || is_fit(found, self.probe);
        if !found.one_bit && self.wide.is_none() {
            self.wide = wide_of(found, self.probe);
        }
    }
}

// The bits of a signal of another size that has the name, with or without their range.
fn wide_of(found: Found<'_>, probe: Probe<'_>) -> Option<(u32, i64)> {
    match probe {
        Probe::Named(name) if found.is_called(name) || found.is_bare(base_of(name)) => {
            Some((found.size?, found.rightmost()))
        }
        _ => None,
    }
}

// Whether a signal is looked for by its name, path or bit, and fits.
fn is_fit(found: Found<'_>, probe: Probe<'_>) -> bool {
    match probe {
        Probe::Named(name) => fit_of(found, name, None).is_some(),
        Probe::Coded(_) | Probe::Bit(..) => false,
    }
}

/// Whether a signal is looked for by its name, and has it.
pub(crate) fn is_named(found: Found<'_>, probe: Probe<'_>) -> bool {
    match probe {
        Probe::Named(name) => found.is_called(name),
        Probe::Coded(_) | Probe::Bit(..) => false,
    }
}

// The signals that a dump declares.
#[derive(Drop)]
struct Declared<'a> {
    alloc: Global,
    scl: Wanted<'a>,
    sda: Wanted<'a>,
    // among the names of those of one bit
    nearest: Nearest<'a>,
    // whether these are compared by their paths
    are_paths: bool,
    // whether the definitions come to their end
    have_ended: bool,
}

impl<'a> Declared<'a> {
    fn new(alloc: Global, names: Names<'a>, signal: Signal) -> Declared<'a> {
        let wanted = word_of(names.of(signal));
        Declared {
            alloc,
            scl: Wanted::new(names.scl),
            sda: Wanted::new(names.sda),
            nearest: Nearest::new(alloc, wanted.as_bytes()),
            are_paths: wanted.contains("."),
            have_ended: false,
        }
    }

    fn wanted(&self, signal: Signal) -> Wanted<'a> {
        match signal {
            Signal::Scl => self.scl,
            Signal::Sda => self.sda,
        }
    }

    // The nearest are told by their paths, and compared by these where the wanted one may be a path.
    fn compare(&mut self, found: Found<'_>) -> Result<(), AllocError> {
        if found.scope.is_empty() {
            return self.nearest.add(self.alloc, found.name);
        }
        let mut path = found.scope.to_vec(self.alloc)?;
        path.push(b'.')?;
        path.extend_from_slice(found.name)?;
        let path = path.as_slice();
        let compared = if self.are_paths { path } else { found.name };
        self.nearest.add_as(self.alloc, compared, path)
    }
}

impl Listing for Declared<'_> {
    fn signal(&mut self, found: Found<'_>) -> Result<(), AllocError> {
        self.scl.see(found);
        self.sda.see(found);
        if found.one_bit {
            self.compare(found)?;
        }
        Ok(())
    }
}

/// What to say where no signal of one bit has the name, or the code, of this line.
pub(crate) fn push_names<F: Read + Seek + Drop>(
    alloc: Global,
    lines: &mut Lines,
    file: Option<F>,
    names: Names<'_>,
    signal: Signal,
) {
    if names.command.is_empty() {
        lines.say("the capture declares no signal of one bit");
        return;
    }
    match file {
        Some(mut file) => {
            if !push_read(alloc, lines, &mut file, names, signal) {
                push_command(alloc, lines, file, names);
            }
        }
        None => {
            push_missing(lines, names, signal, false);
            push_how(lines, signal, false);
        }
    }
}

// The same of a file that can be read once more, without the command. Whether the scope alone was wrong.
fn push_read<F: Read + Seek + Drop>(
    alloc: Global,
    lines: &mut Lines,
    file: &mut F,
    names: Names<'_>,
    signal: Signal,
) -> bool {
    let declared = read_declared(alloc, file, names, signal);
    let declared = declared.as_ref();
    let are_both = misses_both(names, signal, declared);
    push_missing(lines, names, signal, are_both);
    push_unended(lines, declared);
    if push_scopes(alloc, lines, file, names, signal) {
        return true;
    }
    push_declared(lines, declared, signal);
    push_how(lines, signal, are_both);
    false
}

fn read_declared<'a, F: Read + Seek + Drop>(
    alloc: Global,
    file: &mut F,
    names: Names<'a>,
    signal: Signal,
) -> Option<Declared<'a>> {
    if file.seek(SeekFrom::Start(0)).is_err() {
        return None;
    }
    let declared = Declared::new(alloc, names, signal);
    match read_beginning(alloc, &mut Watched::new(file), declared) {
        Ok((_, mut declared, header)) => {
            declared.have_ended = header.is_whole;
            Some(declared)
        }
        Err(_) => None,
    }
}

/// Whether the definitions of a dump have no end, where it can be read once more.
pub(crate) fn breaks_off<F: Read + Seek + Drop>(
    alloc: Global,
    file: &mut F,
    names: Names<'_>,
) -> bool {
    match read_declared(alloc, file, names, Signal::Scl) {
        Some(declared) => !declared.have_ended,
        None => false,
    }
}

// Whether SDA is missing too, where SCL is.
fn misses_both(names: Names<'_>, signal: Signal, declared: Option<&Declared<'_>>) -> bool {
    let Some(declared) = declared else {
        return false;
    };
    signal == Signal::Scl
        && names.scope.is_none()
        && matches!(names.sda, Probe::Named(_))
        && word_of(names.scl) != word_of(names.sda)
        && !declared.sda.is_there
}

// What is not there: this line, or both.
fn push_missing(lines: &mut Lines, names: Names<'_>, signal: Signal, are_both: bool) {
    let probe = names.of(signal);
    match probe {
        Probe::Named(_) => push_word(lines, "no signal of one bit has the name", word_of(probe)),
        Probe::Coded(_) | Probe::Bit(..) => {
            push_word(lines, "no signal of one bit has the code", word_of(probe));
        }
    }
    if let (Some(scope), Probe::Named(_)) = (names.scope, probe) {
        push_word(lines, " in the scope", scope);
    }
    if are_both {
        push_word(lines, ", and none has the name", word_of(names.sda));
    }
    lines.end();
}

// These words, and one more in quotation marks.
fn push_word(lines: &mut Lines, before: &str, word: &str) {
    lines.part(before);
    lines.part(" '");
    push_name(lines, word.as_bytes());
    lines.part("'");
}

fn push_unended(lines: &mut Lines, declared: Option<&Declared<'_>>) {
    match declared {
        Some(declared) if !declared.have_ended => lines.say(BREAKS_OFF),
        _ => {}
    }
}

fn push_declared(lines: &mut Lines, declared: Option<&Declared<'_>>, signal: Signal) {
    let Some(declared) = declared else {
        return;
    };
    push_wide(lines, declared.wanted(signal));
    if declared.nearest.is_empty() {
        lines.say("the file declares no signal of one bit: is it a value change dump?");
    } else {
        lines.say("these signals have one bit, the nearest names first:");
        declared.nearest.tell(lines);
    }
}

// A signal of several bits that has the name, and how one of them is given.
fn push_wide(lines: &mut Lines, wanted: Wanted<'_>) {
    let Some((size, rightmost)) = wanted.wide else {
        return;
    };
    lines.part(format_args!(
        "a signal of this name is there, and has {size} bits: its rightmost one is '"
    ));
    push_name(lines, base_of(word_of(wanted.probe)).as_bytes());
    lines.say(format_args!("[{rightmost}]'"));
}

// How the line is given, or both.
fn push_how(lines: &mut Lines, signal: Signal, are_both: bool) {
    if are_both {
        lines.say("give the names that the lines have in the file with --scl NAME --sda NAME");
    } else {
        lines.say(format_args!("give the name that the line has in the file with --{signal} NAME"));
    }
}

// A command to try: with the two lines that look like a bus, or else the one that lists the signals.
fn push_command<F: Read + Seek + Drop>(
    alloc: Global,
    lines: &mut Lines,
    mut file: F,
    names: Names<'_>,
) {
    let Names {
        command,
        vcd,
        min_pulse,
        ..
    } = names;
    if command.is_empty() {
        return;
    }
    if file.seek(SeekFrom::Start(0)).is_ok() {
        if let Ok(Some(options)) = bus_options(alloc, &mut Watched::new(file), min_pulse) {
            lines.say("two signals look like a bus; try");
            lines.detail(format_args!("{command} {options}"));
            return;
        }
    }
    lines.part("this lists the signals: twire signals ");
    lines.word(vcd);
    lines.end();
}
