// What is wrong with texts, as the protocol has it.

use diagnostics::{About, Diagnostic, Severity, Span};
use editor_texts::{Given, Known, Lasting, Lines, Position, Range, Units, Unread, json};
use growing_text::{Text, shown};
use serde::Serialize;
use std::alloc::{AllocError, Global};

// So many are told of one document.
const MOST: usize = 200;

const SOURCE: &str = "twire";

const ERROR: u8 = 1;

const WARNING: u8 = 2;

const INFORMATION: u8 = 3;

/// A part of a document.
#[derive(Clone, Copy, Serialize)]
pub struct Location<'a> {
    pub uri: &'a str,
    pub range: Range,
}

#[derive(Clone, Copy, Serialize)]
struct Beside<'a> {
    location: Location<'a>,
    message: &'a str,
}

#[derive(Drop, Serialize)]
#[serde(rename_all = "camelCase")]
struct Told<'a, 'b> {
    range: Range,
    severity: u8,
    code: &'static str,
    source: &'static str,
    message: &'a str,
    related_information: Vec<Beside<'b>>,
    #[serde(skip_serializing_if = "Option::is_none")]
    tags: Option<&'static [u8]>,
}

// What nobody uses is shown faded.
const UNNECESSARY: &[u8] = &[1];

// What stands at the first place of a diagnostic that is told at its other one.
const FIRST: &str = "the first of the two";

// What stands at the place of a refusal that is told where its plan begins.
const REFUSED: &str = "it is refused here";

// A diagnostic that is told at one of its two places, or where its plan begins.
#[derive(Clone, Copy)]
struct Shown<'a> {
    diagnostic: &'a Diagnostic,
    span: Span,
    // what stands at its own place, where that is another one
    own: Option<&'static str>,
    // the name of the file in which that is, where no other list has it
    file: Option<&'a str>,
}

/// One of the texts that give a plan, with its lines.
#[derive(Drop)]
pub struct Marked<'a> {
    uri: &'a str,
    lines: Lines<'a>,
}

impl<'a> Marked<'a> {
    /// Its URI.
    pub fn uri(&self) -> &'a str {
        self.uri
    }
}

/// The texts that give a plan, with their lines.
///
/// # Errors
///
/// Where an allocation fails.
pub fn marks_of(alloc: Global, given: &Given, units: Units) -> Result<Vec<Marked<'_>>, AllocError> {
    let mut marks = Vec::new(alloc);
    for part in given.parts.iter() {
        let lines = Lines::of(alloc, part.text.as_slice(), units)?;
        let marked = Marked {
            uri: part.uri.as_str(),
            lines,
        };
        if marks.push(marked).is_err() {
            return Err(AllocError);
        }
    }
    Ok(marks)
}

/// What is told of the text of this number of a plan, as the protocol has it: what was found wrong there.
///
/// # Errors
///
/// Where an allocation fails.
pub fn told_with(
    alloc: Global,
    known: &Known,
    marks: &[Marked<'_>],
    file: u32,
) -> Result<String, AllocError> {
    let uri = match marks.get(file as usize) {
        Some(marked) => marked.uri,
        None => "",
    };
    let list = list_of(alloc, known, marks, place_of(known, file));
    params_with(alloc, uri, list)
}

/// That nothing is wrong with a document any more.
///
/// # Errors
///
/// Where an allocation fails.
pub fn told_nothing(alloc: Global, uri: &str) -> Result<String, AllocError> {
    params_with(alloc, uri, Text::new(alloc))
}

/// What was found wrong with the text of this number, where that is asked for.
///
/// # Errors
///
/// Where an allocation fails.
pub fn report_on(
    alloc: Global,
    known: &Known,
    file: u32,
    units: Units,
) -> Result<String, AllocError> {
    let marks = marks_of(alloc, &known.given, units)?;
    let list = list_of(alloc, known, marks.as_slice(), place_of(known, file));
    let mut report = Text::new(alloc);
    report.push("{\"kind\":\"full\",\"items\":[");
    report.push_made(list.finish());
    report.push("]}");
    report.finish()
}

/// A diagnostic at its own place, as JSON.
///
/// # Errors
///
/// Where an allocation fails.
pub(crate) fn own_json<'a>(
    alloc: Global,
    diagnostic: &'a Diagnostic,
    marks: &'a [Marked<'a>],
) -> Result<String, AllocError> {
    let shown = Shown {
        diagnostic,
        span: diagnostic.span,
        own: None,
        file: None,
    };
    told_of(alloc, shown, marks)
}

// The number of a text, and whether its plan begins with it.
#[derive(Clone, Copy)]
struct Place {
    file: u32,
    begins: bool,
}

// A plan begins with the document that is its head, or with the first text.
fn place_of(known: &Known, file: u32) -> Place {
    let begins = match &known.head {
        Some(uri) => known.given.number_of(uri.as_str()).unwrap_or(0),
        None => 0,
    };
    Place {
        file,
        begins: file == begins,
    }
}

fn list_of(alloc: Global, known: &Known, marks: &[Marked<'_>], place: Place) -> Text {
    let mut list = List::new(alloc);
    let given = &known.given;
    if let Some(marked) = marks.get(place.file as usize) {
        list.add_unread_files(given, marked, place.begins);
        if place.begins {
            list.add_beginning(known, place.file, marks);
        }
    }
    let is_plan = known.is_plan();
    for diagnostic in known.wrong.iter() {
        list.add_places(diagnostic, marks, place.file, is_plan);
    }
    if !known.lasting.is_empty() && !is_plan {
        list.add_lasting(known, place.file, marks);
    }
    list.finish()
}

fn params_with(alloc: Global, uri: &str, list: Text) -> Result<String, AllocError> {
    let mut params = Text::new(alloc);
    params.push("{\"uri\":");
    params.push_made(json(alloc, &uri));
    params.push(",\"diagnostics\":[");
    params.push_made(list.finish());
    params.push("]}");
    params.finish()
}

// The diagnostics of one document.
#[derive(Drop)]
struct List {
    alloc: Global,
    text: Text,
    count: usize,
}

impl List {
    fn new(alloc: Global) -> List {
        List {
            alloc,
            text: Text::new(alloc),
            count: 0,
        }
    }

    // Which files cannot be read that this text names, or the command line, which is told where the plan begins.
    fn add_unread_files(&mut self, given: &Given, text: &Marked<'_>, begins: bool) {
        for file in given.unread.iter() {
            match &file.at {
                None if begins => self.add_unread(file, text.lines.line(1)),
                Some(at) if at.uri.as_str() == text.uri => {
                    self.add_unread(file, text.lines.line(at.line));
                }
                _ => {}
            }
        }
    }

    // What is told on the first line of a plan: a refusal in a file that is told of with another plan.
    fn add_beginning(&mut self, known: &Known, begins: u32, marks: &[Marked<'_>]) {
        let Some(first) = marks.get(begins as usize) else {
            return;
        };
        if known.is_plan() {
            return;
        }
        // (what else is refused there is told with that one)
        if let Some(diagnostic) = known.wrong.first() {
            if let Some(part) = known.given.parts.get(diagnostic.span.file as usize) {
                if !part.is_told {
                    let shown = Shown {
                        diagnostic,
                        span: first.lines.first_span(begins),
                        own: Some(REFUSED),
                        file: Some(part.name.as_str()),
                    };
                    self.add_shown(shown, marks);
                }
            }
        }
    }

    // That a file cannot be read.
    fn add_unread(&mut self, file: &Unread, range: Range) {
        let alloc = self.alloc;
        match unread_words(alloc, file) {
            Ok(message) => {
                let told = Told {
                    range,
                    severity: ERROR,
                    code: "read",
                    source: SOURCE,
                    message: message.as_str(),
                    related_information: Vec::new(alloc),
                    tags: None,
                };
                self.add(json(alloc, &told));
            }
            Err(_) => self.text.cut(),
        }
    }

    // A diagnostic at those of its places that are in this file. What is wrong with a plan is told at both.
    fn add_places(
        &mut self,
        diagnostic: &Diagnostic,
        marks: &[Marked<'_>],
        file: u32,
        is_plan: bool,
    ) {
        let shown = Shown {
            diagnostic,
            span: diagnostic.span,
            own: None,
            file: None,
        };
        if diagnostic.span.file == file {
            self.add_shown(shown, marks);
        }
        if !is_plan || diagnostic.severity != Severity::Error {
            return;
        }
        if let Some(other) = diagnostic.related.first() {
            if other.span.file == file && other.span != diagnostic.span {
                self.add_shown(
                    Shown {
                        span: other.span,
                        own: Some(FIRST),
                        ..shown
                    },
                    marks,
                );
            }
        }
    }

    // What was unsafe before a text was refused, where its names stand in this file now.
    fn add_lasting(&mut self, known: &Known, file: u32, marks: &[Marked<'_>]) {
        let alloc = self.alloc;
        let Ok(names) = known.reading.names(alloc, known.given.parts.as_slice()) else {
            return self.text.cut();
        };
        for lasting in known.lasting.iter() {
            if let Some(span) = lasting.place(&names) {
                if span.file == file && self.count < MOST {
                    self.add(lasting_at(alloc, lasting, location_of(marks, span).range));
                }
            }
        }
    }

    fn add_shown(&mut self, shown: Shown<'_>, marks: &[Marked<'_>]) {
        if self.count < MOST {
            let alloc = self.alloc;
            self.add(told_of(alloc, shown, marks));
        } else {
            self.count = self.count.saturating_add(1);
        }
    }

    fn add(&mut self, told: Result<String, AllocError>) {
        if self.count != 0 {
            self.text.push(",");
        }
        self.text.push_made(told);
        self.count = self.count.saturating_add(1);
    }

    // All of them, and how many more there are.
    fn finish(mut self) -> Text {
        let more = self.count.saturating_sub(MOST);
        if more != 0 {
            let alloc = self.alloc;
            self.add(told_more(alloc, more));
        }
        self.text
    }
}

fn unread_words(alloc: Global, file: &Unread) -> Result<String, AllocError> {
    let mut words = Text::new(alloc);
    words.push("the file ");
    words.push_made(shown(alloc, file.name.as_str()));
    if file.at.is_none() {
        words.push(" of --with");
    }
    words.push(" cannot be read: ");
    words.push(file.reason.as_str());
    words.finish()
}

// What is said of it, after the name of the file where that is told elsewhere.
fn words_of(alloc: Global, told: Shown<'_>) -> Result<String, AllocError> {
    let mut words = Text::new(alloc);
    if let Some(file) = told.file {
        words.push("with ");
        words.push_made(shown(alloc, file));
        words.push(": ");
    }
    words.push(told.diagnostic.message.as_str());
    words.finish()
}

fn lasting_at(alloc: Global, lasting: &Lasting, range: Range) -> Result<String, AllocError> {
    let mut words = Text::new(alloc);
    words.push("before a text was refused: ");
    words.push(lasting.message.as_str());
    let message = words.finish()?;
    let told = Told {
        range,
        severity: INFORMATION,
        code: "unsafe",
        source: SOURCE,
        message: message.as_str(),
        related_information: Vec::new(alloc),
        tags: None,
    };
    json(alloc, &told)
}

fn told_more(alloc: Global, more: usize) -> Result<String, AllocError> {
    let mut words = Text::new(alloc);
    words.push("there are ");
    words.push_number(more as u64);
    words.push(" more");
    let message = words.finish()?;
    let told = Told {
        range: NOWHERE,
        severity: INFORMATION,
        code: "more",
        source: SOURCE,
        message: message.as_str(),
        related_information: Vec::new(alloc),
        tags: None,
    };
    json(alloc, &told)
}

fn told_of<'a>(
    alloc: Global,
    shown: Shown<'a>,
    marks: &'a [Marked<'a>],
) -> Result<String, AllocError> {
    let diagnostic = shown.diagnostic;
    let message = words_of(alloc, shown)?;
    let told = Told {
        range: location_of(marks, shown.span).range,
        severity: severity_of(diagnostic.severity),
        code: diagnostic.code,
        source: SOURCE,
        message: message.as_str(),
        related_information: related_of(alloc, shown, marks)?,
        tags: match diagnostic.about {
            About::Unused => Some(UNNECESSARY),
            _ => None,
        },
    };
    json(alloc, &told)
}

fn severity_of(severity: Severity) -> u8 {
    match severity {
        Severity::Error => ERROR,
        Severity::Warning => WARNING,
    }
}

// What is told beside it. At another place than its own that is this one.
fn related_of<'a>(
    alloc: Global,
    shown: Shown<'a>,
    marks: &'a [Marked<'a>],
) -> Result<Vec<Beside<'a>>, AllocError> {
    let mut related = Vec::new(alloc);
    if let Some(message) = shown.own {
        related.push(Beside {
            location: location_of(marks, shown.diagnostic.span),
            message,
        })?;
        return Ok(related);
    }
    for other in shown.diagnostic.related.iter() {
        related.push(Beside {
            location: location_of(marks, other.span),
            message: other.message.as_str(),
        })?;
    }
    Ok(related)
}

// The beginning of a text.
const NOWHERE: Range = Range {
    start: Position {
        line: 0,
        character: 0,
    },
    end: Position {
        line: 0,
        character: 0,
    },
};

/// Where this part of one of these texts stands.
pub fn location_of<'a>(marks: &[Marked<'a>], span: Span) -> Location<'a> {
    match marks.get(span.file as usize) {
        Some(marked) => Location {
            uri: marked.uri,
            range: marked.lines.range(span.start, span.end),
        },
        None => Location {
            uri: "",
            range: NOWHERE,
        },
    }
}
